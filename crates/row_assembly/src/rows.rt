//! One row made of its cells.

ghost use Rattle.std.specs.Prelude.{◌≡◌, option_map};
ghost use Rattle.outcomes.specs.Outcome.{Gives};
ghost use Rattle.row_core.specs.Views.{value_view, row_views};
ghost use Rattle.shred.specs.Fits.{is_plain};
ghost use Rattle.shred.specs.Shape.{leaf, fields_of};
ghost use Rattle.shred.specs.Views.{shape_view, field_view, field_views, cell_view, cells_view};
ghost use Rattle.row_assembly.specs.Assembly.{begins_absent, is_absent, value_in, passed, passed_fields, passed_field, made, made_fields, made_field, made_inside};
ghost use Rattle.row_assembly.specs.Faults.{says, says_mismatch};

use crate::fault::{CellMismatch, ShredError};
use row_core::Value;
use shred::{Cell, Shape, ShapeField};
use std::alloc::Global;
use std::collections::VecDeque;

/// The value of this shape that the first cells give, one for each leaf. So many optional fields stand above it.
#[cycle(value)]
pub(crate) fn value(
    alloc: Global,
    shape: &Shape,
    level: u64,
    cells: &mut VecDeque<Cell<Value>>,
) -> Result<Value, ShredError>
    ensures { Gives says (λ v. (value_view v, cells_view cells.new.items)) result
        (made (shape_view shape.now) level (cells_view cells.old.items)) }
{
    match shape {
        Shape::Leaf => Ok(leaf_value(level, cells)?),
        Shape::Struct(fields) => {
            let values = values(alloc, fields, level, cells)?;
            Ok(Value::Struct(values))
        }
    }
}

/// The values of fields, in order.
#[cycle(value)]
fn values(
    alloc: Global,
    fields: &[ShapeField],
    level: u64,
    cells: &mut VecDeque<Cell<Value>>,
) -> Result<Vec<Value>, ShredError>
    ensures { Gives says (λ v. (row_views v.items, cells_view cells.new.items)) result
        (made_fields (fields_of (field_views fields.now)) level (cells_view cells.old.items)) }
{
    let mut values = Vec::with_capacity(alloc, fields.len())?;
    for field in fields {
        let value = field_value(alloc, field, level, cells)?;
        values.push(value)?;
    }
    Ok(values)
}

/// The value of a field, or the fault as it is told from outside the field.
#[cycle(value)]
fn field_value(
    alloc: Global,
    field: &ShapeField,
    level: u64,
    cells: &mut VecDeque<Cell<Value>>,
) -> Result<Value, ShredError>
    ensures { Gives says (λ v. (value_view v, cells_view cells.new.items)) result
        (made_field (field_view field.now) level (cells_view cells.old.items)) }
{
    match value_inside(alloc, field, level, cells) {
        Ok(value) => Ok(value),
        Err(error) => Err(error.inside(alloc, field.name.as_str())),
    }
}

/// The value of a field.
#[cycle(value)]
fn value_inside(
    alloc: Global,
    field: &ShapeField,
    level: u64,
    cells: &mut VecDeque<Cell<Value>>,
) -> Result<Value, ShredError>
    ensures { Gives says (λ v. (value_view v, cells_view cells.new.items)) result
        (made_inside (field_view field.now) level (cells_view cells.old.items)) }
{
    if !field.optional {
        return value(alloc, &field.shape, level, cells);
    }
    if begins_absent(level, cells) {
        pass(alloc, &field.shape, level, cells)?;
        return Ok(Value::Null);
    }
    match level.checked_add(1) {
        Some(below) => value(alloc, &field.shape, below, cells),
        // No memory holds a shape of so many levels.
        None => Err(ShredError::Memory),
    }
}

/// The value of a leaf.
fn leaf_value(level: u64, cells: &mut VecDeque<Cell<Value>>) -> Result<Value, CellMismatch>
    ensures { Gives says_mismatch (λ v. (value_view v, cells_view cells.new.items)) result
        (made leaf level (cells_view cells.old.items)) }
{
    let Some(cell) = cells.pop_front() else {
        return Err(CellMismatch);
    };
    match value_in(level, cell) {
        Some(value) => Ok(value),
        None => Err(CellMismatch),
    }
}

/// The value of a cell at this level, if it is one that a leaf may hold.
fn value_in(level: u64, cell: Cell<Value>) -> Option<Value>
    ensures { option_map value_view result ≡ value_in level (cell_view cell) }
{
    if cell.level != level {
        return None;
    }
    let value = cell.value?;
    if is_plain(&value) { Some(value) } else { None }
}

/// Whether a leaf may hold this value.
fn is_plain(value: &Value) -> bool
    ensures { result ≡ is_plain (value_view value.now) }
{
    !matches!(value, Value::Null | Value::Struct(_))
}

/// Whether the first cell is that of a null at this level.
fn begins_absent(level: u64, cells: &VecDeque<Cell<Value>>) -> bool
    ensures { result ≡ begins_absent level (cells_view cells.now.items) }
{
    match cells.front() {
        Some(cell) => is_absent(level, cell),
        None => false,
    }
}

/// Whether a cell is that of a null at this level.
fn is_absent(level: u64, cell: &Cell<Value>) -> bool
    ensures { result ≡ is_absent level (cell_view cell.now) }
{
    cell.level == level && cell.value.is_none()
}

/// Passes the cells of a shape in whose place a null stands at this level.
#[cycle(pass)]
fn pass(
    alloc: Global,
    shape: &Shape,
    level: u64,
    cells: &mut VecDeque<Cell<Value>>,
) -> Result<(), ShredError>
    ensures { Gives says (λ _. cells_view cells.new.items) result
        (passed (shape_view shape.now) level (cells_view cells.old.items)) }
{
    match shape {
        Shape::Leaf => Ok(pass_leaf(level, cells)?),
        Shape::Struct(fields) => pass_fields(alloc, fields, level, cells),
    }
}

/// Passes the cells of fields.
#[cycle(pass)]
fn pass_fields(
    alloc: Global,
    fields: &[ShapeField],
    level: u64,
    cells: &mut VecDeque<Cell<Value>>,
) -> Result<(), ShredError>
    ensures { Gives says (λ _. cells_view cells.new.items) result
        (passed_fields (fields_of (field_views fields.now)) level (cells_view cells.old.items)) }
{
    for field in fields {
        pass_field(alloc, field, level, cells)?;
    }
    Ok(())
}

/// Passes the cells of a field, or gives the fault as it is told from outside the field.
#[cycle(pass)]
fn pass_field(
    alloc: Global,
    field: &ShapeField,
    level: u64,
    cells: &mut VecDeque<Cell<Value>>,
) -> Result<(), ShredError>
    ensures { Gives says (λ _. cells_view cells.new.items) result
        (passed_field (field_view field.now) level (cells_view cells.old.items)) }
{
    match pass(alloc, &field.shape, level, cells) {
        Ok(()) => Ok(()),
        Err(error) => Err(error.inside(alloc, field.name.as_str())),
    }
}

/// Passes the cell of a leaf.
fn pass_leaf(level: u64, cells: &mut VecDeque<Cell<Value>>) -> Result<(), CellMismatch>
    ensures { Gives says_mismatch (λ _. cells_view cells.new.items) result
        (passed leaf level (cells_view cells.old.items)) }
{
    match cells.pop_front() {
        Some(cell) if is_absent(level, &cell) => Ok(()),
        _ => Err(CellMismatch),
    }
}
