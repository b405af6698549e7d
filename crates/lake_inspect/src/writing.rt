//! What is written.

use crate::chunks::written_chunk;
use crate::files::{numbers_file, rows_file};
use byte_words::{LineFault, Transcript, Words};
use delta_actions::{print_commit, read_commit};
use lake_bytes::Cursor;
use thrift_core::{FieldForm, Form, is_writable, read_struct, write_struct};

/// The bytes that are written: of a number for `varint N`, `zigzag N`, `u32 N`, `i32 N` and `i64 N`; for `rows SCHEMA N
/// ..` the file of a table's rows of these numbers, where `N..M` stands for those from N up to M, which isn't one, and
/// for `file SCHEMA ROWS` that of rows that are a JSON array; for `hybrid WIDTH VALUE ..` runs of these values,
/// `VALUE*N` for N of them; for `chunk TYPE HIGHEST COLUMN` the pages of a column; for `commit BYTES` the actions that
/// the bytes are, printed again; for `thrift BYTES` the struct that they are, written again.
pub fn written(words: &mut Words<'_>, told: &mut Transcript) -> Result<Vec<u8>, LineFault> {
    match words.last_word() {
        "rows" => numbers_file(words, told),
        "file" => rows_file(words, told),
        "chunk" => written_chunk(words, told),
        "commit" => written_commit(words, told),
        "thrift" => written_struct(words, told),
        kind => words.written(kind),
    }
}

/// The actions that the bytes are, printed again.
fn written_commit(words: &mut Words<'_>, told: &mut Transcript) -> Result<Vec<u8>, LineFault> {
    let bytes = words.rest_bytes()?;
    match read_commit(told.alloc(), &bytes) {
        Ok(actions) => Ok(print_commit(told.alloc(), &actions)?),
        Err(fault) => Err(told.refused(&fault)),
    }
}

/// The struct that the bytes are, written again as a [`SAMPLE`]. They are misspelled where it can't be.
fn written_struct(words: &mut Words<'_>, told: &mut Transcript) -> Result<Vec<u8>, LineFault> {
    let bytes = words.rest_bytes()?;
    let tree = told.given(read_struct(told.alloc(), &mut Cursor::new(&bytes)))?;
    let form = &SAMPLE;
    if !is_writable(&tree, form) {
        return Err(LineFault::Misspelled);
    }
    Ok(write_struct(told.alloc(), &tree, form)?)
}

/// A struct with a field of each type that is written.
const SAMPLE: Form = Form::Struct(&[
    FieldForm {
        id: 1,
        form: Form::Bool,
    },
    FieldForm {
        id: 2,
        form: Form::Map(&Form::Byte, &Form::Int16),
    },
    FieldForm {
        id: 3,
        form: Form::Int32,
    },
    FieldForm {
        id: 4,
        form: Form::Int64,
    },
    FieldForm {
        id: 5,
        form: Form::Binary,
    },
    FieldForm {
        id: 6,
        form: Form::Struct(&[FieldForm {
            id: 1,
            form: Form::Bool,
        }]),
    },
    FieldForm {
        id: 20,
        form: Form::List(&Form::Bool),
    },
]);
