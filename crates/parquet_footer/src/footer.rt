//! The footer: what a file says of itself.

ghost use Rattle.std.specs.Prelude.{◌≡◌, ◌≤◌, length, IfOk};
ghost use Rattle.parquet_footer.specs.Footer.{FooterSays, HasFooter, ClaimsWithinLimit};
ghost use Rattle.parquet_footer.specs.Frame.{frame_of};
ghost use Rattle.parquet_footer.specs.Metadata.{FileMetaData};
ghost use Rattle.parquet_footer.specs.Outcome.{GivesFooter, FindsFooter, RefusesFooter};
ghost use Rattle.parquet_footer.specs.Reading.{footer_at, metadata_at};
ghost use Rattle.parquet_footer.specs.Views.{footer_view};

use crate::fault::FooterError;
use crate::frame::split_file;
use crate::metadata::read_metadata;
use std::alloc::{Allocator, Global};

/// What a file's footer says (Parquet, FileMetaData), as far as rows are read by it.
pub struct Footer<A: Allocator = Global> {
    /// The nodes of the schema, depth first. The first is the root.
    pub schema: Vec<SchemaElement<A>, A>,
    /// How many rows the file has.
    pub num_rows: u64,
    /// Its row groups.
    pub row_groups: Vec<RowGroup<A>, A>,
}

// By hand, so that a drop is one call to prove and not all that it holds (docs/GATE.md).
impl<A: Allocator> Drop for Footer<A> {
    fn drop(self) {
        let Footer {
            schema: _,
            num_rows: _,
            row_groups: _,
        } = self;
    }
}

/// A node of the schema (Parquet, SchemaElement).
pub struct SchemaElement<A: Allocator = Global> {
    /// The physical type, by its number: 2 is INT64. A leaf has one.
    pub physical_type: Option<i64>,
    /// 0 for required, 1 for optional, 2 for repeated. Each node but the root has one.
    pub repetition_type: Option<i64>,
    /// The name, in the bytes of the file.
    pub name: Vec<u8, A>,
    /// How many children follow, none behind a leaf.
    pub num_children: u64,
}

// By hand, so that a drop is one call to prove and not all that it holds (docs/GATE.md).
impl<A: Allocator> Drop for SchemaElement<A> {
    fn drop(self) {
        let SchemaElement {
            physical_type: _,
            repetition_type: _,
            name: _,
            num_children: _,
        } = self;
    }
}

/// A row group (Parquet, RowGroup).
pub struct RowGroup<A: Allocator = Global> {
    /// Its column chunks.
    pub columns: Vec<ColumnChunk<A>, A>,
    /// How many rows it has.
    pub num_rows: u64,
}

// By hand, so that a drop is one call to prove and not all that it holds (docs/GATE.md).
impl<A: Allocator> Drop for RowGroup<A> {
    fn drop(self) {
        let RowGroup {
            columns: _,
            num_rows: _,
        } = self;
    }
}

/// One column of a row group (Parquet, ColumnChunk with its ColumnMetaData).
pub struct ColumnChunk<A: Allocator = Global> {
    /// The names from below the root to the leaf, in the bytes of the file.
    pub path_in_schema: Vec<Vec<u8, A>, A>,
    /// The codec, by its number: 0 is UNCOMPRESSED.
    pub codec: i64,
    /// How many values it has, nulls among them.
    pub num_values: u64,
    /// The offset of its first data page in the file, as the file states it.
    pub data_page_offset: i64,
}

// By hand, so that a drop is one call to prove and not all that it holds (docs/GATE.md).
impl<A: Allocator> Drop for ColumnChunk<A> {
    fn drop(self) {
        let ColumnChunk {
            path_in_schema: _,
            codec: _,
            num_values: _,
            data_page_offset: _,
        } = self;
    }
}

impl<A: Allocator + Copy> Footer<A> {
    /// Reads the footer of a file (Parquet, File Format). Unknown fields are skipped, the last of a repeated field
    /// counts, and bytes behind the footer's struct are passed over.
    ///
    /// P9 for a file of over 64 MiB. P1 for one of under 12 bytes, or without the magic bytes at both ends. P2 with
    /// what is wrong with the footer: its stated length is above the file's less 12 (B1 Short), its struct can't be
    /// read, a field that is needed is missing or of another kind (TH4), or a count is negative (B3). P9 where the
    /// file or a group claims more than 4,194,304 rows. `NoRoom` where `alloc` refuses a growth.
    ///
    /// What is read lies in the memory of `alloc`, names and paths too. The time is linear in the footer's bytes, the
    /// memory in its values.
    pub fn read(alloc: A, bytes: &[u8]) -> Result<Footer<A>, FooterError>
        // The bytes are framed, and a front of their footer spells what was read, within the limits.
        ensures found { IfOk result (λ footer. HasFooter bytes.now (footer_view footer) × ClaimsWithinLimit (footer_view footer)) }
        // What the footer of a framed file says is read, unless it has no room.
        ensures only { (metadata : FileMetaData) → HasFooter bytes.now metadata → length bytes.now ≤ 67108864 → ClaimsWithinLimit metadata → FindsFooter footer_view metadata result }
        // A fault of the frame is answered whatever the memory.
        ensures early { RefusesFooter result (frame_of bytes.now) }
        // Which fault it is: the first one in the order of the tests.
        ensures exact { GivesFooter footer_view result (footer_at bytes.now) }
    {
        footer_in(alloc, bytes)
    }

    /// Reads what a footer's bytes say, which stand between a file's pages and the footer's length (see
    /// [`crate::split_file`]).
    ///
    /// P2 with what is wrong with them, and P9 where the file or a group claims more than 4,194,304 rows, as
    /// [`Footer::read`] has them. `NoRoom` where `alloc` refuses a growth. Time and memory are those of
    /// [`Footer::read`].
    pub fn of_bytes(alloc: A, footer: &[u8]) -> Result<Footer<A>, FooterError>
        // A front of the bytes spells what was read, within the limits.
        ensures found { IfOk result (λ metadata. FooterSays footer.now (footer_view metadata) × ClaimsWithinLimit (footer_view metadata)) }
        // What the bytes say is read, unless it has no room.
        ensures only { (metadata : FileMetaData) → FooterSays footer.now metadata → ClaimsWithinLimit metadata → FindsFooter footer_view metadata result }
        // Which fault it is: the first one in the order of the tests.
        ensures exact { GivesFooter footer_view result (metadata_at footer.now) }
    {
        read_metadata(alloc, footer)
    }
}

/// The footer of a file, in the order of the tests.
#[tactic(auto, unfolding(crate::specs::Reading::footer_at))]
fn footer_in<A: Allocator + Copy>(alloc: A, bytes: &[u8]) -> Result<Footer<A>, FooterError>
    ensures exact { GivesFooter footer_view result (footer_at bytes.now) }
    ensures early { RefusesFooter result (frame_of bytes.now) }
{
    let (_, footer) = split_file(bytes)?;
    read_metadata(alloc, footer)
}
