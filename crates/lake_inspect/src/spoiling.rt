//! What comes of spoiled bytes.

use crate::describing::tell_bytes;
use crate::rows::tell_file;
use crate::schema::schema_of;
use byte_words::{Kind, LineFault, Question, Tallies, Transcript, Words, question_named, spoiled};
use schema_tree::Schema;
use std::alloc::Global;

/// What bytes are read as.
#[derive(Clone, Copy)]
enum Read<'a> {
    /// As what they are by themselves.
    Alone(Kind),
    /// As a file of a table of this schema, of which the rows are told.
    File(&'a Schema<Global>),
}

/// Tells what comes of spoiled bytes, for `KIND BYTES` and for `file SCHEMA FILE`.
pub fn tell_spoiled(words: &mut Words<'_>, told: &mut Transcript) -> Result<(), LineFault> {
    if words.takes("file ") {
        let schema = words.word_bytes();
        let schema = schema_of(&schema, told)?;
        return tell_outcomes(Read::File(&schema), words, told);
    }
    match question_named(words.last_word()) {
        Some(Question::Alone(kind)) => tell_outcomes(Read::Alone(kind), words, told),
        _ => Err(LineFault::Misspelled),
    }
}

/// Tells how often each outcome came where each front of the bytes is read, and for each of them the bytes without it,
/// and with 00 and with FF in its place: a line for each outcome, in that order of the ways; `same` where the bytes are
/// told as the unspoiled ones, `other` where they are told otherwise. Where the unspoiled ones are refused, tells why.
fn tell_outcomes(
    read: Read<'_>,
    words: &mut Words<'_>,
    told: &mut Transcript,
) -> Result<(), LineFault> {
    let bytes = words.rest_bytes()?;
    let mut whole = Transcript::new(told.alloc(), " | ");
    if let Err(fault) = tell_read(read, &bytes, &mut whole) {
        told.put(whole.text());
        return Err(fault);
    }
    tallied(read, &bytes, whole.whole()?, told.alloc())?.tell(told);
    Ok(())
}

/// Tells what bytes are.
fn tell_read(read: Read<'_>, bytes: &[u8], told: &mut Transcript) -> Result<(), LineFault> {
    match read {
        Read::Alone(kind) => tell_bytes(kind, bytes, told),
        Read::File(schema) => tell_file(told.alloc(), schema, bytes, told),
    }
}

/// How often each outcome came, where this is told of the unspoiled bytes.
fn tallied(read: Read<'_>, bytes: &[u8], whole: &str, alloc: Global) -> Result<Tallies, LineFault> {
    let mut tallies = Tallies::new(alloc);
    for place in 0..bytes.len() {
        for way in 0..4 {
            let spoiled = spoiled(alloc, bytes, place, way)?;
            tallies.count(outcome(read, &spoiled, whole, alloc)?, way)?;
        }
    }
    Ok(tallies)
}

/// The refusal of bytes; or whether they are told as the unspoiled ones.
fn outcome(read: Read<'_>, bytes: &[u8], whole: &str, alloc: Global) -> Result<String, LineFault> {
    let mut told = Transcript::new(alloc, " | ");
    match tell_read(read, bytes, &mut told) {
        Ok(()) => Ok(String::from_str(alloc, compared(told.whole()?, whole))?),
        Err(LineFault::Refused) => Ok(String::from_str(alloc, told.whole()?)?),
        Err(fault) => Err(fault),
    }
}

fn compared(text: &str, whole: &str) -> &'static str {
    if text == whole { "same" } else { "other" }
}
