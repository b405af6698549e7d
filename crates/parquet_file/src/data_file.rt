//! The rows of a data file, for those who have a memory for its footer beside their own: what is answered where the
//! footer has no room is said here alone.

ghost use Rattle.std.specs.Prelude.{◌≡◌, List, IfOk};
ghost use Rattle.row_core.specs.Rows.{Row};
ghost use Rattle.row_core.specs.Views.{row_views};
ghost use Rattle.schema_tree.specs.Schema.{tree_of};
ghost use Rattle.parquet_footer.specs.declared.fault.FileError.{FileError};
ghost use Rattle.parquet_footer.specs.declared.fault.FileError.TheVariants.{Memory};
ghost use Rattle.parquet_file.specs.DataFile.{in_heap, FindsFile, GivesFile};
ghost use Rattle.parquet_file.specs.File.{IsFile, KeepsLimits};
ghost use Rattle.parquet_file.specs.Reading.{part_among, part_at, rows_at};
ghost use Rattle.parquet_file.specs.Views.{file_part_view};

use crate::error::RowsError;
use crate::rows::{FilePart, read_part, read_rows};
use parquet_footer::FileError;
use row_core::Value;
use schema_tree::Schema;
use std::alloc::{Allocator, Global};

/// A memory that footers are read in.
pub trait FooterHeap: Allocator + Copy {
    /// What is answered for a file whose footer has no room in it.
    ghost refusal: { FileError };

    /// What is answered for a file whose footer has no room in it: P9 TooLarge for a memory of a fixed size, and a want
    /// of memory where it is the machine's, which the rows lie in too.
    fn no_room(self) -> FileError
        ensures { result ≡ refusal };
}

impl FooterHeap for Global {
    ghost refusal = { Memory };

    fn no_room(self) -> FileError {
        FileError::Memory
    }
}

/// Reads the rows of a data file, as [`read_rows`] does: the footer in the memory of `heap`, the rows in that of
/// `alloc`. Where the heap has no room for the footer, the answer is the heap's own [`FooterHeap::no_room`].
pub fn read_file<A: Allocator, H: FooterHeap>(
    alloc: Global,
    heap: H,
    schema: &Schema<A>,
    bytes: &[u8],
) -> Result<Vec<Value>, FileError>
    // The bytes are a file of these rows, within the limits.
    ensures found { IfOk result (λ rows. IsFile bytes.now (tree_of schema.now) (row_views rows.items)
        × KeepsLimits bytes.now (row_views rows.items)) }
    // The rows that the bytes are a file of, within the limits, are read, unless memory or the footer's room runs out.
    ensures only { (rows : List Row) → IsFile bytes.now (tree_of schema.now) rows → KeepsLimits bytes.now rows
        → FindsFile H.refusal (λ rows. row_views rows.items) rows result }
    // Which fault it is: the first one in the order of the tests, unless the footer's room runs out.
    ensures exact { GivesFile H.refusal (λ rows. row_views rows.items) result (rows_at bytes.now (tree_of schema.now)) }
{
    match read_rows(alloc, heap, schema, bytes) {
        Ok(rows) => Ok(rows),
        Err(error) => Err(in_heap(heap, error)),
    }
}

/// Reads a part of the rows of a data file, as [`read_part`] does, in two memories as [`read_file`].
pub fn read_file_part<A: Allocator, H: FooterHeap>(
    alloc: Global,
    heap: H,
    schema: &Schema<A>,
    bytes: &[u8],
    first: u64,
    most: u64,
) -> Result<FilePart, FileError>
    // The bytes are a file of rows, within the limits, of which these are a part.
    ensures found { IfOk result (λ part. (rows : List Row) × IsFile bytes.now (tree_of schema.now) rows × KeepsLimits bytes.now rows
        × (file_part_view part ≡ part_among first most rows)) }
    // Where the bytes are a file of rows, within the limits, their part is read, unless memory or the footer's room
    // runs out.
    ensures only { (rows : List Row) → IsFile bytes.now (tree_of schema.now) rows → KeepsLimits bytes.now rows
        → FindsFile H.refusal file_part_view (part_among first most rows) result }
    // Which fault it is: the first one in the order of the tests, unless the footer's room runs out.
    ensures exact { GivesFile H.refusal file_part_view result (part_at bytes.now (tree_of schema.now) first most) }
{
    match read_part(alloc, heap, schema, bytes, first, most) {
        Ok(part) => Ok(part),
        Err(error) => Err(in_heap(heap, error)),
    }
}

/// What is answered for an error of a file whose footer is read in a heap.
fn in_heap<H: FooterHeap>(heap: H, error: RowsError) -> FileError
    ensures { result ≡ in_heap H.refusal error }
{
    match error {
        RowsError::Memory => FileError::Memory,
        RowsError::NoRoom => heap.no_room(),
        RowsError::Fault(fault) => FileError::Fault(fault),
    }
}
