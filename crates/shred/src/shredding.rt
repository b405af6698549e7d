//! Rows as columns.

ghost use Rattle.std.specs.Prelude.{◌≡◌, ℕ, ◌≤◌, All, IfOk, map, option_map, Some};
ghost use Rattle.row_core.specs.Views.{value_view, row_views};
ghost use Rattle.shred.specs.Columns.{field_at, is_null, null_cell, cell, column, columns, all_some};
ghost use Rattle.shred.specs.Fits.{FitsShape};
ghost use Rattle.shred.specs.Views.{shape_view, way_view, way_views, borrowed_value, borrowed_cell, borrowed_column, borrowed_columns};

use crate::columns::{Cell, Column};
use crate::shapes::Shape;
use crate::ways::{Step, ways_of};
use row_core::Value;
use std::alloc::{AllocError, Global};

/// The columns of rows, one for each leaf of the shape, depth first. The values are borrowed. [`column_of`] makes one
/// of them, or that of a few rows.
///
/// Each row has to fit the shape: a struct with one value for each field, which is null only where the field is
/// optional; a leaf has a value that is no struct. The time is linear in rows times leaves, and for each of these in
/// the fields that lead to the leaf.
pub fn shred<'a>(
    alloc: Global,
    shape: &Shape,
    rows: &'a [Value],
) -> Result<Vec<Column<&'a Value>>, AllocError>
    requires fit { All (FitsShape (shape_view shape.now)) (row_views rows.now) }
    ensures columns { IfOk result (λ v. columns (shape_view shape.now) (row_views rows.now) ≡ Some (borrowed_columns v.items)) }
{
    let ways = ways_of(alloc, shape)?;
    match columns_of(alloc, &ways, rows)? {
        Some(columns) => Ok(columns),
        None => unreachable!(),
    }
}

/// The columns of these ways, where all cells are there.
fn columns_of<'a>(
    alloc: Global,
    ways: &[Vec<Step>],
    rows: &'a [Value],
) -> Result<Option<Vec<Column<&'a Value>>>, AllocError>
    ensures { IfOk result (λ v. option_map (λ cs. borrowed_columns cs.items) v
        ≡ all_some (map (λ way. column way (row_views rows.now)) (way_views ways.now))) }
{
    let mut columns = Vec::with_capacity(alloc, ways.len())?;
    for way in ways {
        match column_of(alloc, way, rows)? {
            Some(column) => columns.push(column)?,
            None => return Ok(None),
        }
    }
    Ok(Some(columns))
}

/// The column of the leaf at the end of a way. The values are borrowed. `None` where a row has no such leaf, or a null
/// stands on the way where none may: for rows that fit the shape of the way there is one.
///
/// The time is linear in rows times steps.
pub fn column_of<'a>(
    alloc: Global,
    way: &[Step],
    rows: &'a [Value],
) -> Result<Option<Column<&'a Value>>, AllocError>
    ensures { IfOk result (λ c. option_map borrowed_column c ≡ column (way_view way.now) (row_views rows.now)) }
{
    let mut levels = Vec::with_capacity(alloc, rows.len())?;
    let mut values = Vec::new(alloc);
    for row in rows {
        let Some(cell) = cell_of(way, row) else {
            return Ok(None);
        };
        levels.push(cell.level)?;
        if let Some(value) = cell.value {
            values.push(value)?;
        }
    }
    Ok(Some(Column { levels, values }))
}

/// The cell of a row, if it has one.
fn cell_of<'a>(way: &[Step], row: &'a Value) -> Option<Cell<&'a Value>>
    ensures { option_map borrowed_cell result ≡ cell (way_view way.now) (value_view row.now) }
{
    let mut value = row;
    let mut level = 0;
    for step in way {
        value = field_of(value, step.place)?;
        if is_null(value) {
            return null_cell(step.optional, level);
        }
        level += u64::from(step.optional);
    }
    Some(Cell {
        level,
        value: Some(value),
    })
}

/// The cell of a null that was met at this level.
fn null_cell<'a>(optional: bool, level: u64) -> Option<Cell<&'a Value>>
    ensures { option_map borrowed_cell result ≡ null_cell optional level }
{
    optional.then_some(Cell { level, value: None })
}

/// The value at a place, if this is a struct that has it.
fn field_of<'a>(value: &'a Value, place: usize) -> Option<&'a Value>
    ensures { option_map borrowed_value result ≡ field_at place (value_view value.now) }
{
    match value {
        Value::Struct(values) => values.get(place),
        _ => None,
    }
}

fn is_null(value: &Value) -> bool
    ensures { result ≡ is_null (value_view value.now) }
{
    matches!(value, Value::Null)
}
