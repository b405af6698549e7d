//! Reads of rows, one call of the store after the other.

use case_calls::{CaseStore, Waiting, begin, step};
use case_words::Transcript;
use log_reading::Log;
use source_core::{Offset, ReadEnd, ReadRows, SourceSession, TailFault, handed_text, read_offset};
use std::alloc::Global;

/// A read, if one waits.
pub type Reader = Option<Waiting<SourceSession>>;

/// Begins a read, in place of one that waits: `MAX OFFSET`, how many rows are handed out at most, and the offset that
/// it begins at.
pub fn begin_read(reader: &mut Reader, words: &str, told: &mut Transcript) {
    let (max, offset) = told.halves(words);
    let max = told.number(max);
    match read_offset(told.alloc, offset) {
        Ok(Some(place)) if !told.is_bad() => begin_at(reader, max, place, told),
        Ok(_) => told.misspelled(),
        Err(_error) => told.lacks_memory(),
    }
}

/// Begins a read.
fn begin_at(reader: &mut Reader, max: u64, place: Offset, told: &mut Transcript) {
    let log = Log::new(told.alloc);
    let session = SourceSession::read(told.alloc, place, max, true, log, None, None);
    let ended = begin(reader, session, told);
    tell_end(&ended, false, told);
}

/// Makes the call that a read asks for, or has memory run out in it.
pub fn go_on_reading(
    store: &mut CaseStore,
    reader: &mut Reader,
    is_short: bool,
    told: &mut Transcript,
) {
    let ended = step(store, reader, is_short, told);
    tell_end(&ended, is_short, told);
}

/// Adds what a read handed out, or why it didn't, if it ended. Want of memory is told where it ran out in a call, and
/// fails elsewhere.
fn tell_end(ended: &Option<ReadEnd>, is_short: bool, told: &mut Transcript) {
    if let Some(end) = ended {
        match &end.answer {
            Ok(handed) => tell_handed(handed, told),
            Err(TailFault::Memory) if !is_short => told.lacks_memory(),
            Err(fault) => told.show(fault),
        }
    }
}

/// Adds the rows and the offset that a read handed out.
fn tell_handed(handed: &ReadRows, told: &mut Transcript) {
    match handed_text(told.alloc, handed) {
        Ok(text) => told.add(&text),
        Err(_error) => told.lacks_memory(),
    }
}
