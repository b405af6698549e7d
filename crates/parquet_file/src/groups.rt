//! The rows of row groups.

ghost use Rattle.std.specs.Prelude.{◌≡◌, ◌==◌};
ghost use Rattle.row_core.specs.Views.{row_views};
ghost use Rattle.schema_tree.specs.Tree.{Tree};
ghost use Rattle.shred.specs.Views.{shape_view};
ghost use Rattle.parquet_footer.specs.Views.{group_view, group_views};
ghost use Rattle.parquet_schema.specs.Views.{leaf_views};
ghost use Rattle.parquet_file.specs.Internal.{AreLeavesOf};
ghost use Rattle.parquet_file.specs.Outcome.{AddsPart, Tests};
ghost use Rattle.parquet_file.specs.Reading.{claimed_rows, rows_of_group, rows_of_groups};

use crate::assembling::add_rows;
use crate::columns::{are_counted, tested_columns};
use crate::flat::rows_to_pass;
use parquet_footer::{FileError, FileFault, RowGroup};
use parquet_schema::FileShape;
use row_core::Value;
use std::alloc::{Allocator, Global};

/// Several groups claim so many rows together.
pub(crate) fn claims_add_up<A: Allocator>(groups: &[RowGroup<A>], rows: u64) -> bool
    ensures { result ≡ (claimed_rows (group_views groups.now) == rows) }
{
    let mut left = rows;
    for group in groups {
        if group.num_rows > left {
            return false;
        }
        left -= group.num_rows;
    }
    left == 0
}

/// Reads the rows of several groups, and keeps none.
pub(crate) fn test_groups<A: Allocator>(
    alloc: Global,
    bytes: &[u8],
    file: &FileShape,
    groups: &[RowGroup<A>],
) -> Result<(), FileError>
    ensures { (t : Tree) → AreLeavesOf t (shape_view file.now.shape) (leaf_views file.now.leaves.items)
        → Tests (rows_of_groups bytes.now t (shape_view file.now.shape) (group_views groups.now)) result }
{
    for group in groups {
        let mut rows = Vec::new(alloc);
        add_group(alloc, bytes, file, group, 0, 0, &mut rows)?;
    }
    Ok(())
}

/// Adds at most `most` rows of several groups, from the one of the number `first` on.
pub(crate) fn add_groups<A: Allocator>(
    alloc: Global,
    bytes: &[u8],
    file: &FileShape,
    groups: &[RowGroup<A>],
    first: u64,
    most: u64,
    rows: &mut Vec<Value>,
) -> Result<(), FileError>
    ensures { (t : Tree) → AreLeavesOf t (shape_view file.now.shape) (leaf_views file.now.leaves.items)
        → AddsPart first most (rows_of_groups bytes.now t (shape_view file.now.shape) (group_views groups.now))
        (row_views rows.old.items) result (row_views rows.new.items) }
{
    let mut skip = first;
    let mut wanted = most;
    for group in groups {
        let before = rows.len();
        add_group(alloc, bytes, file, group, skip, wanted, rows)?;
        wanted = wanted.saturating_sub(rows.len().saturating_sub(before) as u64);
        skip = skip.saturating_sub(group.num_rows);
    }
    Ok(())
}

/// Adds at most `most` rows of a group, from the one of the number `first` on. All its pages are tested first, leaf by
/// leaf, and read again for the rows, of each leaf one page at a time: where no field is a struct only the pages in
/// which these rows stand, and else all of them.
#[tactic(auto, unfolding(crate::specs::Reading::rows_of_group))]
fn add_group<A: Allocator>(
    alloc: Global,
    bytes: &[u8],
    file: &FileShape,
    group: &RowGroup<A>,
    first: u64,
    most: u64,
    rows: &mut Vec<Value>,
) -> Result<(), FileError>
    ensures { (t : Tree) → AreLeavesOf t (shape_view file.now.shape) (leaf_views file.now.leaves.items)
        → AddsPart first most (rows_of_group bytes.now t (shape_view file.now.shape) (group_view group.now))
        (row_views rows.old.items) result (row_views rows.new.items) }
{
    // Read once: the proof needs its range.
    let num_rows = group.num_rows;
    let passed = rows_to_pass(&file.shape, num_rows, first);
    let mut readers = tested_columns(alloc, bytes, &group.columns, &file.leaves, passed)?;
    if !are_counted(group, &file.leaves) {
        return Err(FileFault::CountMismatch.into());
    }
    add_rows(
        alloc,
        &file.shape,
        num_rows - passed,
        &mut readers,
        first - passed,
        most,
        rows,
    )
}
