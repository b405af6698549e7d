//! The rows of a file.

ghost use Rattle.std.specs.Prelude.{◌≡◌, List, IfOk};
ghost use Rattle.row_core.specs.Rows.{Row};
ghost use Rattle.row_core.specs.Views.{row_views};
ghost use Rattle.schema_tree.specs.Schema.{tree_of};
ghost use Rattle.parquet_footer.specs.Frame.{frame_of};
ghost use Rattle.parquet_footer.specs.Outcome.{FileGives};
ghost use Rattle.parquet_footer.specs.Views.{footer_view};
ghost use Rattle.parquet_file.specs.File.{IsFile, KeepsLimits};
ghost use Rattle.parquet_file.specs.Outcome.{FindsRows, GivesRows, RefusesRows};
ghost use Rattle.parquet_file.specs.Reading.{part_among, part_at, part_read, rows_at, footer_rows};
ghost use Rattle.parquet_file.specs.Views.{file_part_view};

use crate::error::RowsError;
use crate::groups::{add_groups, claims_add_up, test_groups};
use parquet_footer::{FileError, FileFault, Footer, split_file};
use parquet_schema::fit;
use row_core::Value;
use schema_tree::Schema;
use std::alloc::{Allocator, Global};

/// A part of the rows of a file.
#[derive(Drop)]
pub struct FilePart {
    /// The rows, in the file's order.
    pub rows: Vec<Value>,
    /// How many rows the whole file has.
    pub total: u64,
}

/// Reads the rows of a file, for a table of this schema (Apache Parquet, File Format). The file's columns may stand in
/// any order and may be optional or required whatever the table says.
///
/// What the footer says is read in the memory of `heap`, the rows in that of `alloc`: [`RowsError::NoRoom`] and
/// [`RowsError::Memory`] come where these refuse a growth.
///
/// P9, P1, P2 and P9 again as [`Footer::read`] has them. P8 where the file's columns aren't the table's, or a column of
/// the table has no rows. Then row group by row group, and in it leaf by leaf, in the table's order: P8 where it has no
/// chunk of the leaf, P3 for the chunk's codec, and page by page as `parquet_pages::read_page` has it; behind the
/// leaves P7 where a chunk hasn't as many values as the group has rows, and P8 where two leaves differ on whether a
/// struct above both is null. At last P7 where the groups haven't as many rows as the file.
///
/// The time is linear in the footer's bytes, those of the pages of each group, and rows times leaves; pages that
/// several groups state are read for each, and paths are compared leaf by chunk. Beside the footer the memory holds at
/// most the rows that the file claims, and of each leaf the cells of 4,096 of them; of a page nothing else is kept.
pub fn read_rows<A: Allocator, H: Allocator + Copy>(
    alloc: Global,
    heap: H,
    schema: &Schema<A>,
    bytes: &[u8],
) -> Result<Vec<Value>, RowsError>
    // The bytes are a file of these rows, within the limits.
    ensures found { IfOk result (λ rows. IsFile bytes.now (tree_of schema.now) (row_views rows.items)
        × KeepsLimits bytes.now (row_views rows.items)) }
    // The rows that the bytes are a file of, within the limits, are read, unless memory runs out.
    ensures only { (rows : List Row) → IsFile bytes.now (tree_of schema.now) rows → KeepsLimits bytes.now rows
        → FindsRows (λ rows. row_views rows.items) rows result }
    // A fault of the frame is answered whatever the memory.
    ensures early { RefusesRows result (frame_of bytes.now) }
    // Which fault it is: the first one in the order of the tests.
    ensures exact { GivesRows (λ rows. row_views rows.items) result (rows_at bytes.now (tree_of schema.now)) }
{
    Ok(part_in(alloc, heap, schema, bytes, 0, u64::MAX)?.rows)
}

/// Reads at most `most` rows of a file, from the one of the number `first` on, and how many there are (Apache Parquet,
/// File Format). The whole file is tested, with the faults of [`read_rows`] in the same order, and in the same
/// memories.
///
/// The time is linear in the footer's bytes, the headers and levels of the pages of each group, the bytes of columns of
/// texts, bytes, and numbers of one or two bytes, and the rows that are given times the leaves; other values of a fixed
/// size cost nothing. Each page is gone through once, and once more where a row that is given stands in it; of a group
/// in front the last page of each leaf is too. Where the table has a struct, all pages are, with their levels and each
/// 4,096 of their rows times the leaves. Beside the footer the memory holds the rows that are given, and of each leaf the
/// cells of 4,096 rows; of a page nothing else is kept.
pub fn read_part<A: Allocator, H: Allocator + Copy>(
    alloc: Global,
    heap: H,
    schema: &Schema<A>,
    bytes: &[u8],
    first: u64,
    most: u64,
) -> Result<FilePart, RowsError>
    // The bytes are a file of rows, within the limits, of which these are a part.
    ensures found { IfOk result (λ part. (rows : List Row) × IsFile bytes.now (tree_of schema.now) rows × KeepsLimits bytes.now rows
        × (file_part_view part ≡ part_among first most rows)) }
    // Where the bytes are a file of rows, within the limits, their part is read, unless memory runs out.
    ensures only { (rows : List Row) → IsFile bytes.now (tree_of schema.now) rows → KeepsLimits bytes.now rows
        → FindsRows file_part_view (part_among first most rows) result }
    // A fault of the frame is answered whatever the memory.
    ensures early { RefusesRows result (frame_of bytes.now) }
    // Which fault it is: the first one in the order of the tests.
    ensures exact { GivesRows file_part_view result (part_at bytes.now (tree_of schema.now) first most) }
{
    part_in(alloc, heap, schema, bytes, first, most)
}

/// A part of the rows of a file, in the order of the tests.
#[tactic(auto, unfolding(crate::specs::Reading::rows_at))]
fn part_in<A: Allocator, H: Allocator + Copy>(
    alloc: Global,
    heap: H,
    schema: &Schema<A>,
    bytes: &[u8],
    first: u64,
    most: u64,
) -> Result<FilePart, RowsError>
    ensures exact { GivesRows file_part_view result (part_at bytes.now (tree_of schema.now) first most) }
    ensures early { RefusesRows result (frame_of bytes.now) }
{
    let (front, footer) = split_file(bytes)?;
    let footer = Footer::of_bytes(heap, footer)?;
    Ok(part_by_footer(alloc, schema, front, &footer, first, most)?)
}

/// A part of the rows that a footer says stand in the bytes before it.
#[tactic(auto, unfolding(crate::specs::Reading::footer_rows))]
fn part_by_footer<A: Allocator, B: Allocator>(
    alloc: Global,
    schema: &Schema<A>,
    bytes: &[u8],
    footer: &Footer<B>,
    first: u64,
    most: u64,
) -> Result<FilePart, FileError>
    ensures { FileGives file_part_view result (part_read first most (footer_rows bytes.now (tree_of schema.now) (footer_view footer.now))) }
{
    let file = fit(alloc, schema, &footer.schema)?;
    if !claims_add_up(&footer.row_groups, footer.num_rows) {
        test_groups(alloc, bytes, &file, &footer.row_groups)?;
        return Err(FileFault::CountMismatch.into());
    }
    let mut rows = Vec::new(alloc);
    add_groups(
        alloc,
        bytes,
        &file,
        &footer.row_groups,
        first,
        most,
        &mut rows,
    )?;
    Ok(FilePart {
        rows,
        total: footer.num_rows,
    })
}
