//! Rows made again of columns.

ghost use Rattle.std.specs.Prelude.{◌≡◌, List, map, drop, IfOk, IfErr, OnOk};
ghost use Rattle.outcomes.specs.Outcome.{Gives, says_nothing};
ghost use Rattle.row_core.specs.Rows.{Row};
ghost use Rattle.row_core.specs.Views.{value_view, row_views};
ghost use Rattle.shred.specs.Columns.{AreColumnsOf};
ghost use Rattle.shred.specs.Shape.{HasFields};
ghost use Rattle.shred.specs.Ways.{ways, highest};
ghost use Rattle.shred.specs.Views.{shape_view, column_views, way_view};
ghost use Rattle.row_assembly.specs.Assembly.{assembled, row_made, rows_made, row_count, heads};
ghost use Rattle.row_assembly.specs.Faults.{says};
ghost use Rattle.row_assembly.specs.Views.{reader_views};

use crate::cells::{Reader, next_cells, readers_of};
use crate::fault::ShredError;
use crate::rows::value;
use row_core::Value;
use shred::{Cell, Column, Shape, Step, ways_of};
use std::alloc::{AllocError, Global};
use std::collections::VecDeque;

/// The rows whose columns these are, one column for each leaf of the shape, depth first. The values are moved. The
/// time is linear in rows times leaves.
///
/// H1 and H2 for columns that are those of no rows that fit the shape, H1 before H2.
pub fn assemble(
    alloc: Global,
    shape: &Shape,
    columns: Vec<Column<Value>>,
) -> Result<Vec<Value>, ShredError>
    // The rows or the fault are those that the columns have, unless memory runs out.
    ensures assembled { Gives says (λ v. row_views v.items) result (assembled (shape_view shape.now) (column_views columns.items)) }
    // What is given are rows that fit, whose columns these are.
    ensures made { IfOk result (λ v. AreColumnsOf (shape_view shape.now) (row_views v.items) (column_views columns.items)) }
    // Where each struct has a field, columns of rows that fit give these rows.
    ensures given { HasFields (shape_view shape.now) → (rows : List Row)
        → AreColumnsOf (shape_view shape.now) rows (column_views columns.items) → IfOk result (λ v. row_views v.items ≡ rows) }
    // They are never refused.
    ensures refused { HasFields (shape_view shape.now) → (rows : List Row)
        → AreColumnsOf (shape_view shape.now) rows (column_views columns.items) → IfErr result (λ e. says e ≡ says_nothing) }
{
    rows_of(alloc, shape, columns)
}

/// The rows whose columns these are, or the fault.
#[tactic(auto, unfolding(crate::specs::Assembly::assembled))]
fn rows_of(
    alloc: Global,
    shape: &Shape,
    columns: Vec<Column<Value>>,
) -> Result<Vec<Value>, ShredError>
    ensures { Gives says (λ v. row_views v.items) result (assembled (shape_view shape.now) (column_views columns.items)) }
{
    let tops = highest_levels(alloc, shape)?;
    let count = row_count(&columns);
    let mut readers = readers_of(alloc, count, &tops, columns)?;
    read_rows(alloc, shape, count, &mut readers)
}

/// So many rows of the cells that are left.
pub(crate) fn read_rows(
    alloc: Global,
    shape: &Shape,
    count: usize,
    readers: &mut [Reader],
) -> Result<Vec<Value>, ShredError>
    ensures { Gives says (λ v. row_views v.items) result (rows_made (shape_view shape.now) count (reader_views readers.old)) }
{
    let mut rows = Vec::with_capacity(alloc, count)?;
    let mut cells = VecDeque::with_capacity(alloc, readers.len())?;
    for _row in 0..count {
        let row = next_row(alloc, shape, readers, &mut cells)?;
        rows.push(row)?;
    }
    Ok(rows)
}

/// The row of the first cells that are left, which are put in place of those that were there.
fn next_row(
    alloc: Global,
    shape: &Shape,
    readers: &mut [Reader],
    cells: &mut VecDeque<Cell<Value>>,
) -> Result<Value, ShredError>
    ensures row { Gives says value_view result (row_made (shape_view shape.now) (heads (reader_views readers.old))) }
    ensures left { OnOk result (reader_views readers.new ≡ map (drop 1) (reader_views readers.old)) }
{
    next_cells(readers, cells)?;
    value(alloc, shape, 0, cells)
}

/// The number of levels of the first column.
pub(crate) fn row_count(columns: &[Column<Value>]) -> usize
    ensures { result ≡ row_count (column_views columns.now) }
{
    match columns.first() {
        Some(column) => column.levels.len(),
        None => 0,
    }
}

/// The highest level of each leaf.
pub(crate) fn highest_levels(alloc: Global, shape: &Shape) -> Result<Vec<u64>, AllocError>
    ensures { IfOk result (λ v. v.items ≡ map highest (ways (shape_view shape.now))) }
{
    let ways = ways_of(alloc, shape)?;
    let mut levels = Vec::with_capacity(alloc, ways.len())?;
    for way in &ways {
        levels.push(highest(way))?;
    }
    Ok(levels)
}

/// How many steps are optional.
pub(crate) fn highest(way: &[Step]) -> u64
    ensures { result ≡ highest (way_view way.now) }
{
    let mut level = 0;
    for step in way {
        level += u64::from(step.optional);
    }
    level
}
