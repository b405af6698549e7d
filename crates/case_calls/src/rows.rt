//! The rows of a batch, as they stand in a line.

use case_words::Transcript;
use json_text::{ArrayText, JsonRows, TextError};

/// The rows of these words: a JSON array, or `fill N`, which is so many rows with a text of 1 MiB under `s`. `None`
/// where they are misspelled or memory runs out.
pub fn spelled_rows(text: &str, told: &mut Transcript) -> Option<JsonRows<'static>> {
    match text.strip_prefix("fill ") {
        Some(count) => {
            let rows = filled(count, told);
            rows_in(rows.as_text(), told)
        }
        None => rows_in(text, told),
    }
}

/// The rows of a JSON array.
fn rows_in(text: &str, told: &mut Transcript) -> Option<JsonRows<'static>> {
    match ArrayText::from_text(told.alloc, text) {
        Ok(array) => Some(JsonRows::Array(array)),
        Err(TextError::Malformed) => {
            told.misspelled();
            None
        }
        Err(TextError::Memory) => {
            told.lacks_memory();
            None
        }
    }
}

/// So many rows as a JSON array.
fn filled(count: &str, told: &mut Transcript) -> Transcript {
    let mut rows = Transcript::new(told.alloc);
    rows.text("[");
    let mut front = "{\"s\":\"";
    for _ in 0..told.number(count) {
        rows.text(front);
        for _ in 0..1u64 << 17 {
            rows.text("xxxxxxxx");
        }
        rows.text("\"}");
        front = ",{\"s\":\"";
    }
    rows.text("]");
    told.heed(&rows);
    rows
}
