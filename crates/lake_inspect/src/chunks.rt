//! Pages of a column: what a chunk's pages hold, and the bytes that are written for a column.

use crate::columns::column_in;
use byte_words::{LineFault, Transcript, Words};
use page_writing::{MAX_PAGE_ROWS, write_page};
use parquet_footer::FileError;
use parquet_pages::{ColumnReader, Leaf, LeafType, test_chunk};
use row_core::Value;
use schema_tree::Primitive;
use shred::Column;
use std::alloc::Global;

/// Tells what the pages of a chunk hold, for `TYPE FLAGS OFFSET COUNT BYTES`: the levels and the values. FLAGS is `-`,
/// or has for each node that may be null in the file `n` where the table lets it be null, and `r` where it doesn't. The
/// pages are tested, and read then.
pub fn tell_chunk(words: &mut Words<'_>, told: &mut Transcript) -> Result<(), LineFault> {
    let leaf = words.word();
    let nullable = words.flags();
    let offset = words.word();
    let offset = words.number::<i64>(offset);
    let count = words.last_word();
    let count = words.number::<u64>(count);
    let bytes = words.rest_bytes()?;
    let leaf = Leaf {
        leaf_type: type_named(leaf)?,
        nullable: &nullable,
    };
    let column = told.given(column_of(told.alloc(), leaf, &bytes, offset, count))?;
    tell_column(&column, told);
    Ok(())
}

/// The column that the pages of a chunk hold, once they are tested.
fn column_of(
    alloc: Global,
    leaf: Leaf<'_>,
    bytes: &[u8],
    offset: i64,
    count: u64,
) -> Result<Column<Value>, FileError> {
    test_chunk(alloc, &leaf, bytes, offset, count)?;
    let mut reader = ColumnReader::open(leaf, bytes, offset, count)?;
    let mut column = Column {
        levels: Vec::new(alloc),
        values: Vec::new(alloc),
    };
    // Each page takes a byte at least.
    for _page in 0..bytes.len() {
        let count = reader.fill(alloc)?;
        if count == 0 {
            break;
        }
        let mut part = reader.take(alloc, count, 0, count)?;
        column.levels.append(&mut part.kept.levels)?;
        column.values.append(&mut part.kept.values)?;
    }
    Ok(column)
}

/// The pages that are written for a column, for `TYPE HIGHEST COLUMN`, of which this is JSON: pages of
/// [`MAX_PAGE_ROWS`] levels, the last with the rest, each with as many values as it has highest levels.
pub fn written_chunk(words: &mut Words<'_>, told: &mut Transcript) -> Result<Vec<u8>, LineFault> {
    let leaf = words.word();
    let highest = words.word();
    let highest = words.number::<u64>(highest);
    let column = words.rest_bytes()?;
    let leaf_type = type_named(leaf)?;
    let column = column_in(told.alloc(), &column)?;
    let mut bytes = Vec::new(told.alloc());
    told.given(write_pages(told.alloc(), leaf_type, highest, &column, &mut bytes))?;
    Ok(bytes)
}

fn write_pages(
    alloc: Global,
    leaf_type: LeafType,
    highest: u64,
    column: &Column<Value>,
    bytes: &mut Vec<u8>,
) -> Result<(), FileError> {
    let mut levels = column.levels.as_slice();
    let mut values = column.values.as_slice();
    while !levels.is_empty() {
        let (page, behind) = levels.split_at(levels.len().min(MAX_PAGE_ROWS));
        let present = page.iter().filter(|level| **level == highest).count();
        let (kept, others) = values.split_at(values.len().min(present));
        let page = Column {
            levels: Vec::from_slice(alloc, page)?,
            values: kept.iter().collect(alloc)?,
        };
        write_page(alloc, bytes, leaf_type, highest, &page)?;
        levels = behind;
        values = others;
    }
    Ok(())
}

/// The type of a leaf, by its name in a schema.
fn type_named(word: &str) -> Result<LeafType, LineFault> {
    let primitive = Primitive::from_name(word).ok_or(LineFault::Misspelled)?;
    LeafType::of(primitive).ok_or(LineFault::Misspelled)
}

/// Tells the levels of a column and its values.
fn tell_column(column: &Column<Value>, told: &mut Transcript) {
    told.debug("levels ", &column.levels);
    told.put(", values");
    for value in &column.values {
        tell_value(value, told);
    }
}

/// Tells a value behind a space: a text in quotes, bytes in hexadecimal.
fn tell_value(value: &Value, told: &mut Transcript) {
    match value {
        Value::Null => told.put(" null"),
        Value::Bool(truth) => told.show(" ", truth),
        Value::Int(number) => told.show(" ", number),
        Value::Text(text) => told.debug(" ", text),
        Value::Bytes(bytes) => {
            told.put(" ");
            told.hex(bytes);
        }
        Value::Struct(_) => told.put(" struct"),
    }
}
