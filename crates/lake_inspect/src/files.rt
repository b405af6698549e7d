//! Files that are written for rows of a table.

ghost use Rattle.std.specs.Prelude.{All, IfOk};
ghost use Rattle.row_core.specs.Conforms.{Conforms};
ghost use Rattle.row_core.specs.Views.{row_views};
ghost use Rattle.schema_tree.specs.Schema.{tree_of};

use crate::rows::rows_in;
use crate::schema::{schema_and_bytes, schema_of};
use byte_words::{LineFault, Transcript, Words};
use parquet_file::write_file;
use row_core::{RowFault, Value, conforms, unsupported};
use schema_tree::Schema;
use std::alloc::{AllocError, Global};

/// The file of the rows of a table, for `SCHEMA N ..`: in the row of a number each column has that number.
pub fn numbers_file(words: &mut Words<'_>, told: &mut Transcript) -> Result<Vec<u8>, LineFault> {
    let schema = words.last_word();
    let schema = words.spelled(schema);
    let numbers = words.numbers();
    words.end()?;
    let schema = schema_of(&schema, told)?;
    let rows = number_rows(told.alloc(), &schema, &numbers)?;
    file_of(&schema, &rows, told)
}

/// The rows of a table that have these numbers, each in every column.
fn number_rows(
    alloc: Global,
    schema: &Schema<Global>,
    numbers: &[i64],
) -> Result<Vec<Value>, LineFault>
    ensures { IfOk result (λ rows. All (Conforms (tree_of schema.now)) (row_views rows.items)) }
{
    let mut rows = Vec::with_capacity(alloc, numbers.len())?;
    for number in numbers {
        let values = number_values(alloc, schema, *number)?;
        let row = Value::Struct(values);
        if !conforms(schema, &row) {
            return Err(LineFault::Misspelled);
        }
        rows.push(row)?;
    }
    Ok(rows)
}

/// A number for each column of a table.
fn number_values(
    alloc: Global,
    schema: &Schema<Global>,
    number: i64,
) -> Result<Vec<Value>, AllocError> {
    let mut values = Vec::new(alloc);
    for _field in schema.fields() {
        values.push(Value::Int(number))?;
    }
    Ok(values)
}

/// The file of the rows of a table, for `SCHEMA ROWS`, of which these are the text of a JSON array.
pub fn rows_file(words: &mut Words<'_>, told: &mut Transcript) -> Result<Vec<u8>, LineFault> {
    let (schema, text) = schema_and_bytes(words, told)?;
    let rows = rows_in(&schema, &text, told)?;
    file_of(&schema, &rows, told)
}

/// The file of rows, where each column of the table has values.
fn file_of(
    schema: &Schema<Global>,
    rows: &[Value],
    told: &mut Transcript,
) -> Result<Vec<u8>, LineFault>
    requires { All (Conforms (tree_of schema.now)) (row_views rows.now) }
{
    match unsupported(told.alloc(), schema)? {
        Some(path) => Err(told.refused(&RowFault::Unsupported { path })),
        None => told.given(write_file(told.alloc(), schema, rows)),
    }
}
