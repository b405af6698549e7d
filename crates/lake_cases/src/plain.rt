//! Scripts of the plain table, which the slow program of the definitions answers.

use crate::tables::tell_count;
use case_words::{Transcript, head};
use row_core::Value;
use std::str;
use table_model::{Answer, AppendAnswer, Batch, Closing, Offset, Table};

/// Answers the lines of a script over a plain table that was just created: `append APP NUMBER ROW ..`, `close APP` and
/// `read MAX VERSION FILE ROW`. Blank lines have no answer.
pub fn tell_plain(script: &[u8], told: &mut Transcript) {
    let Ok(table) = Table::created(told.alloc) else {
        return told.lacks_memory();
    };
    let mut table = table;
    for line in str::from_utf8(script).unwrap_or("").lines() {
        let (word, rest) = head(line);
        match word {
            "append" => append(&mut table, rest, told),
            "close" => close(&mut table, rest, told),
            "read" => read(&table, rest, told),
            "" => {}
            _ => told.misspelled(),
        }
    }
    tell_count(table.entries(), told);
}

/// Appends the batch of an application, a number, and rows of one column.
fn append(table: &mut Table, words: &str, told: &mut Transcript) {
    let (application, words) = head(words);
    let (number, words) = head(words);
    let mut rows = Vec::new(told.alloc);
    for word in words.split_whitespace() {
        add_row(&mut rows, word, told);
    }
    let batch = Batch {
        application: told.copy_of(application),
        number: told.number(number),
        rows,
    };
    match table.append(told.alloc, batch) {
        Ok(AppendAnswer::Committed(version)) => told.tell("Committed", &version),
        Ok(AppendAnswer::Already(number)) => told.tell("Already", &number),
        Ok(AppendAnswer::Stale(last)) => told.tell("Stale", &last),
        Ok(AppendAnswer::Differs) => told.say("Differs"),
        Ok(AppendAnswer::StreamClosed) => told.say("StreamClosed"),
        Err(_error) => told.lacks_memory(),
    }
}

/// Adds a row of this number.
fn add_row(rows: &mut Vec<Value>, word: &str, told: &mut Transcript) {
    let Ok(number) = word.parse::<i64>() else {
        return told.misspelled();
    };
    let mut values = Vec::new(told.alloc);
    told.note(values.push(Value::Int(number)));
    told.note(rows.push(Value::Struct(values)));
}

/// Closes the stream of an application.
fn close(table: &mut Table, application: &str, told: &mut Transcript) {
    match table.close(told.copy_of(application)) {
        Ok(Closing::Closed(version)) => told.tell("Closed", &version),
        Ok(Closing::AlreadyClosed) => told.say("AlreadyClosed"),
        Err(_error) => told.lacks_memory(),
    }
}

/// Reads at most so many rows from an offset on, and adds what is handed out: the rows and the next offset, in one
/// line.
fn read(table: &Table, words: &str, told: &mut Transcript) {
    let (max, words) = told.halves(words);
    let (version, words) = told.halves(words);
    let (file, row) = told.halves(words);
    let max = told.number(max);
    let offset = Offset {
        version: told.number(version),
        file: told.number(file),
        row: told.number(row),
    };
    match table.read(told.alloc, max, offset) {
        Ok(Answer::Handed(rows, next)) => {
            for row in &rows {
                tell_row(row, told);
            }
            told.with("next ", &next.version);
            told.with(" ", &next.file);
            told.tell("", &next.row);
        }
        Ok(Answer::Beyond(next)) => told.tell("BeyondLog", &next),
        Ok(Answer::BadPlace(version)) => told.tell("BadPlace", &version),
        Err(_error) => told.lacks_memory(),
    }
}

/// Adds the number of a row of one column.
fn tell_row(row: &Value, told: &mut Transcript) {
    if let Value::Struct(values) = row
        && let [Value::Int(number)] = values.as_slice()
    {
        told.with("", number);
    } else {
        told.text("?");
    }
    told.text(" ");
}
