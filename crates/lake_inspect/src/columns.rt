//! Columns of a table's rows that are given as JSON, and their rows.

ghost use Rattle.std.specs.Prelude.{All};
ghost use Rattle.row_core.specs.Conforms.{Conforms};
ghost use Rattle.row_core.specs.Views.{row_views};
ghost use Rattle.schema_tree.specs.Schema.{tree_of};

use crate::rows::{items_of, json_of, rows_in, tell_value};
use crate::schema::tell_leaf;
use byte_words::{LineFault, Transcript};
use json::Scratch;
use json_text::{Named, Value as Json, member_of, named};
use row_assembly::assemble;
use row_core::{RowPrinter, Value, conforms, same_rows};
use schema_tree::Schema;
use shred::{Column, Shape, shred};
use std::alloc::{AllocError, Global};

/// Tells the columns of the rows that the text of a JSON array is, a line for each; and whether they are assembled to
/// the same rows.
pub fn tell_columns(
    schema: &Schema<Global>,
    text: &[u8],
    told: &mut Transcript,
) -> Result<(), LineFault> {
    let rows = rows_in(schema, text, told)?;
    tell_shredded(schema, &rows, told)
}

fn tell_shredded(
    schema: &Schema<Global>,
    rows: &[Value],
    told: &mut Transcript,
) -> Result<(), LineFault>
    requires { All (Conforms (tree_of schema.now)) (row_views rows.now) }
{
    let shape = Shape::of_schema(told.alloc(), schema)?;
    let columns = shred(told.alloc(), &shape, rows)?;
    tell_leaves(schema, &columns, told)?;
    tell_again(&shape, &columns, rows, told)
}

/// Tells the leaves of a schema with their columns.
fn tell_leaves(
    schema: &Schema<Global>,
    columns: &[Column<&Value>],
    told: &mut Transcript,
) -> Result<(), AllocError> {
    let printer = RowPrinter::of_schema(told.alloc(), schema)?;
    for (leaf, column) in schema.leaves(told.alloc())?.iter().zip(columns) {
        tell_leaf(leaf, told);
        tell_column(&printer, column, told);
    }
    Ok(())
}

fn tell_column(printer: &RowPrinter, column: &Column<&Value>, told: &mut Transcript) {
    told.debug(", levels ", &column.levels);
    told.put(", values");
    for value in &column.values {
        told.put(" ");
        tell_value(printer, value, told);
    }
}

/// Tells whether columns are assembled to these rows.
fn tell_again(
    shape: &Shape,
    columns: &[Column<&Value>],
    rows: &[Value],
    told: &mut Transcript,
) -> Result<(), LineFault> {
    let copies = owned(told.alloc(), columns)?;
    let again = told.given(assemble(told.alloc(), shape, copies))?;
    told.line(if same_rows(rows, &again) {
        "same rows"
    } else {
        "other rows"
    });
    Ok(())
}

/// Columns with values of their own.
fn owned(alloc: Global, columns: &[Column<&Value>]) -> Result<Vec<Column<Value>>, AllocError> {
    let mut copies = Vec::new(alloc);
    for column in columns {
        let values = leaf_copies(alloc, &column.values)?;
        let levels = Vec::from_slice(alloc, &column.levels)?;
        copies.push(Column { levels, values })?;
    }
    Ok(copies)
}

fn leaf_copies(alloc: Global, values: &[&Value]) -> Result<Vec<Value>, AllocError> {
    let mut copies = Vec::new(alloc);
    for value in values {
        copies.push(leaf_copy(alloc, value)?)?;
    }
    Ok(copies)
}

/// The same value, which is no struct.
fn leaf_copy(alloc: Global, value: &Value) -> Result<Value, AllocError> {
    match value {
        Value::Null | Value::Struct(_) => Ok(Value::Null),
        Value::Bool(truth) => Ok(Value::Bool(*truth)),
        Value::Int(whole) => Ok(Value::Int(*whole)),
        Value::Text(text) => Ok(Value::Text(String::from_str(alloc, text)?)),
        Value::Bytes(bytes) => Ok(Value::Bytes(Vec::from_slice(alloc, bytes)?)),
    }
}

/// Tells the rows of the columns that the text of a JSON array is, a line for each, and which don't conform.
pub fn tell_assembled(
    schema: &Schema<Global>,
    text: &[u8],
    told: &mut Transcript,
) -> Result<(), LineFault> {
    let shape = Shape::of_schema(told.alloc(), schema)?;
    let columns = columns_in(told.alloc(), text)?;
    let rows = told.given(assemble(told.alloc(), &shape, columns))?;
    let printer = RowPrinter::of_schema(told.alloc(), schema)?;
    for row in &rows {
        told.line("");
        tell_value(&printer, row, told);
        if !conforms(schema, row) {
            told.put(" doesn't conform");
        }
    }
    Ok(())
}

/// The columns of the JSON array that a text is.
fn columns_in(alloc: Global, text: &[u8]) -> Result<Vec<Column<Value>>, LineFault> {
    let mut scratch = Scratch::new(alloc);
    let value = json_of(alloc, text, &mut scratch)?;
    columns_of(alloc, &value)
}

/// The columns that the items of an array are.
fn columns_of(alloc: Global, value: &Json<'_>) -> Result<Vec<Column<Value>>, LineFault> {
    let mut columns = Vec::new(alloc);
    for column in items_of(value)? {
        columns.push(column_of(alloc, column)?)?;
    }
    Ok(columns)
}

/// The column that the text of an object of `levels` and `values` is.
pub fn column_in(alloc: Global, text: &[u8]) -> Result<Column<Value>, LineFault> {
    let mut scratch = Scratch::new(alloc);
    let value = json_of(alloc, text, &mut scratch)?;
    column_of(alloc, &value)
}

/// The column that an object of `levels` and `values` is.
fn column_of(alloc: Global, value: &Json<'_>) -> Result<Column<Value>, LineFault> {
    match named(alloc, value)? {
        Some(members) => column_with(alloc, &members),
        None => Err(LineFault::Misspelled),
    }
}

fn column_with(alloc: Global, members: &Named<'_, '_>) -> Result<Column<Value>, LineFault> {
    let levels = items_at(members, "levels")?;
    let values = items_at(members, "values")?;
    let levels = levels_in(alloc, levels)?;
    let values = values_in(alloc, values)?;
    Ok(Column { levels, values })
}

/// The items of the array under a name.
fn items_at<'a, 't>(
    members: &Named<'a, 't>,
    name: &'a str,
) -> Result<&'a Vec<Json<'t>>, LineFault> {
    items_of(member_of(members, name).ok_or(LineFault::Misspelled)?)
}

fn levels_in(alloc: Global, items: &[Json<'_>]) -> Result<Vec<u64>, LineFault> {
    let mut levels = Vec::new(alloc);
    for level in items {
        let level = level.as_number().ok_or(LineFault::Misspelled)?;
        levels.push(level.as_u64().ok_or(LineFault::Misspelled)?)?;
    }
    Ok(levels)
}

fn values_in(alloc: Global, items: &[Json<'_>]) -> Result<Vec<Value>, LineFault> {
    let mut values = Vec::new(alloc);
    for value in items {
        values.push(given_value(alloc, value)?)?;
    }
    Ok(values)
}

/// The value that a JSON value stands for in a column, where an object is a struct without fields.
fn given_value(alloc: Global, value: &Json<'_>) -> Result<Value, LineFault> {
    match value {
        Json::Null => Ok(Value::Null),
        Json::Bool(truth) => Ok(Value::Bool(*truth)),
        Json::Number(number) => {
            let whole = number.as_i64().ok_or(LineFault::Misspelled)?;
            Ok(Value::Int(whole))
        }
        Json::String(text) => Ok(Value::Text(String::from_str(alloc, text)?)),
        Json::Object(_) => Ok(Value::Struct(Vec::new(alloc))),
        Json::Array(_) => Err(LineFault::Misspelled),
    }
}
