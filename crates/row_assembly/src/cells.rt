//! Columns read cell by cell.

ghost use Rattle.std.specs.Prelude.{◌≡◌, drop, map, option_map, OnOk};
ghost use Rattle.outcomes.specs.Outcome.{Gives};
ghost use Rattle.shred.specs.Views.{cell_view, cells_view, column_view, column_views};
ghost use Rattle.row_assembly.specs.Assembly.{cells_of_columns, cells_of_column, first_cell, heads, is_even};
ghost use Rattle.row_assembly.specs.Faults.{says};
ghost use Rattle.row_assembly.specs.Views.{reader_view, reader_views};

use crate::fault::ShredError;
use row_core::Value;
use shred::{Cell, Column};
use std::alloc::{AllocError, Global};
use std::collections::VecDeque;

/// What is left of a column.
#[derive(Drop)]
pub(crate) struct Reader {
    /// The highest level, at which a cell has a value.
    top: u64,
    levels: VecDeque<u64>,
    values: VecDeque<Value>,
}

impl Reader {
    /// The reader of a column of so many rows, if it is even.
    fn open(rows: usize, top: u64, column: Column<Value>) -> Option<Reader>
        ensures { option_map reader_view result ≡ cells_of_column rows top (column_view column) }
    {
        if !is_even(rows, top, &column) {
            return None;
        }
        Some(Reader {
            top,
            levels: VecDeque::from_vec(column.levels),
            values: VecDeque::from_vec(column.values),
        })
    }

    /// The next cell.
    fn next_cell(&mut self) -> Option<Cell<Value>>
        ensures cell { option_map cell_view result ≡ first_cell (reader_view self.old) }
        ensures left { reader_view self.new ≡ drop 1 (reader_view self.old) }
    {
        let level = self.levels.pop_front()?;
        if level != self.top {
            return Some(Cell { level, value: None });
        }
        let value = self.values.pop_front();
        Some(Cell { level, value })
    }
}

/// Whether a column has so many levels, and a value for each at the highest.
fn is_even(rows: usize, top: u64, column: &Column<Value>) -> bool
    ensures { result ≡ is_even rows top (column_view column.now) }
{
    column.levels.len() == rows
        && column.levels.iter().filter(|level| **level == top).count() == column.values.len()
}

/// The readers of even columns of so many rows, one for each highest level.
pub(crate) fn readers_of(
    alloc: Global,
    rows: usize,
    tops: &[u64],
    columns: Vec<Column<Value>>,
) -> Result<Vec<Reader>, ShredError>
    ensures { Gives says (λ v. reader_views v.items) result (cells_of_columns rows tops.now (column_views columns.items)) }
{
    let mut columns = VecDeque::from_vec(columns);
    let mut readers = Vec::with_capacity(alloc, tops.len())?;
    for top in tops {
        let Some(column) = columns.pop_front() else {
            return Err(ShredError::UnevenColumns);
        };
        let Some(reader) = Reader::open(rows, *top, column) else {
            return Err(ShredError::UnevenColumns);
        };
        readers.push(reader)?;
    }
    if columns.is_empty() {
        Ok(readers)
    } else {
        Err(ShredError::UnevenColumns)
    }
}

/// Puts the next cell of each reader in place of those that were there.
pub(crate) fn next_cells(
    readers: &mut [Reader],
    cells: &mut VecDeque<Cell<Value>>,
) -> Result<(), AllocError>
    ensures cells { OnOk result (cells_view cells.new.items ≡ heads (reader_views readers.old)) }
    ensures left { OnOk result (reader_views readers.new ≡ map (drop 1) (reader_views readers.old)) }
{
    cells.clear();
    for reader in readers.iter_mut() {
        if let Some(cell) = reader.next_cell() {
            cells.push_back(cell)?;
        }
    }
    Ok(())
}
