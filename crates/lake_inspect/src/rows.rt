//! Rows of a table: those of Parquet files, and those that are given as JSON.

ghost use Rattle.std.specs.Prelude.{All, IfOk};
ghost use Rattle.row_core.specs.Conforms.{Conforms};
ghost use Rattle.row_core.specs.Views.{row_views};
ghost use Rattle.schema_tree.specs.Schema.{tree_of};

use byte_words::{LineFault, Transcript};
use json::Scratch;
use json_text::{TextError, Value as Json, value_in};
use parquet_file::read_rows;
use row_core::{RowError, RowPrinter, Value, conforms, row_from_json, same_rows};
use schema_tree::Schema;
use std::alloc::{AllocError, Allocator, Global};
use std::str::from_utf8;

/// Tells how many rows of a table a file has, and then the rows as JSON. Its footer is read in the memory of `heap`.
pub fn tell_file<H: Allocator + Copy>(
    heap: H,
    schema: &Schema<Global>,
    bytes: &[u8],
    told: &mut Transcript,
) -> Result<(), LineFault> {
    let rows = told.given(read_rows(told.alloc(), heap, schema, bytes))?;
    told.show("", &rows.len());
    told.put(" rows");
    let printer = RowPrinter::of_schema(told.alloc(), schema)?;
    for row in &rows {
        told.line("");
        tell_value(&printer, row, told);
    }
    Ok(())
}

/// Tells a row, or the value of a leaf, as JSON.
pub fn tell_value(printer: &RowPrinter, row: &Value, told: &mut Transcript) {
    let alloc = told.alloc();
    match printer.write(alloc, row, Vec::new(alloc)) {
        Ok(text) => told.bytes(&text),
        Err(_) => told.lack_memory(),
    }
}

/// The text of a row as JSON.
fn printed(alloc: Global, schema: &Schema<Global>, row: &Value) -> Result<Vec<u8>, AllocError> {
    RowPrinter::of_schema(alloc, schema)?.write(alloc, row, Vec::new(alloc))
}

/// The JSON value that bytes are the text of.
pub fn json_of<'a>(
    alloc: Global,
    bytes: &'a [u8],
    scratch: &'a mut Scratch,
) -> Result<Json<'a>, LineFault> {
    let Ok(text) = from_utf8(bytes) else {
        return Err(LineFault::Misspelled);
    };
    match value_in(alloc, text, scratch) {
        Ok(value) => Ok(value),
        Err(TextError::Memory) => Err(LineFault::Memory),
        Err(TextError::Malformed) => Err(LineFault::Misspelled),
    }
}

/// The items of a JSON array.
pub fn items_of<'a, 't>(value: &'a Json<'t>) -> Result<&'a Vec<Json<'t>>, LineFault> {
    match value {
        Json::Array(items) => Ok(items),
        _ => Err(LineFault::Misspelled),
    }
}

/// Tells the row that a text is, as it is printed; and where it doesn't conform to the schema, or what is printed isn't
/// read as the same row.
pub fn tell_row(
    schema: &Schema<Global>,
    text: &[u8],
    told: &mut Transcript,
) -> Result<(), LineFault> {
    let row = row_of(schema, text, told)?;
    let line = printed(told.alloc(), schema, &row)?;
    let is_same = reads_again(schema, row, &line, told)?;
    told.bytes(&line);
    if !is_same {
        told.put(" isn't read as it stands");
    }
    Ok(())
}

/// Whether a row conforms to the schema and is the one that a text is.
fn reads_again(
    schema: &Schema<Global>,
    row: Value,
    text: &[u8],
    told: &mut Transcript,
) -> Result<bool, LineFault> {
    let does_conform = conforms(schema, &row);
    let again = row_of(schema, text, told)?;
    Ok(does_conform && same_rows(&[row], &[again]))
}

/// The row that a text is.
fn row_of(schema: &Schema<Global>, text: &[u8], told: &mut Transcript) -> Result<Value, LineFault> {
    let mut scratch = Scratch::new(told.alloc());
    let value = json_of(told.alloc(), text, &mut scratch)?;
    told.given(row_from_json(told.alloc(), schema, &value))
}

/// The rows of the JSON array that a text is.
pub fn rows_in(
    schema: &Schema<Global>,
    text: &[u8],
    told: &mut Transcript,
) -> Result<Vec<Value>, LineFault>
    ensures { IfOk result (λ rows. All (Conforms (tree_of schema.now)) (row_views rows.items)) }
{
    let mut scratch = Scratch::new(told.alloc());
    let value = json_of(told.alloc(), text, &mut scratch)?;
    let items = items_of(&value)?;
    told.given(rows_from_json(told.alloc(), schema, items))
}

/// The rows that JSON values are.
fn rows_from_json(
    alloc: Global,
    schema: &Schema<Global>,
    values: &[Json<'_>],
) -> Result<Vec<Value>, RowError>
    ensures { IfOk result (λ rows. All (Conforms (tree_of schema.now)) (row_views rows.items)) }
{
    let mut rows = Vec::new(alloc);
    for value in values {
        let row = row_from_json(alloc, schema, value)?;
        rows.push(row)?;
    }
    Ok(rows)
}
