//! The appends of batches and the closes of streams, one call of the store after the other.

use case_calls::{CaseStore, Waiting, begin, place_of, spelled_rows, step};
use case_words::Transcript;
use sink_core::{SinkEnd, SinkFault, SinkOutcome, SinkSession};
use std::collections::BTreeMap;
use table_log::Loaded;

/// A sink's session, if one waits.
type Sink = Option<Waiting<SinkSession<'static>>>;

/// The sinks of a case, by the names of their actors.
pub type Sinks = BTreeMap<String, Sink>;

/// Does what a line of an actor says, and adds how it ended: `step`, `memory`, or a job that begins.
pub fn tell_sink(
    store: &mut CaseStore,
    sinks: &mut Sinks,
    actor: &str,
    line: &str,
    told: &mut Transcript,
) {
    let Some(sink) = place_of(sinks, actor, told) else {
        return;
    };
    let is_short = line == "memory";
    let ended = if line == "step" || is_short {
        step(store, sink, is_short, told)
    } else {
        start(sink, line, told)
    };
    tell_end(&ended, is_short, told);
}

/// Begins a session, in place of one that waits: `append APP NUMBER AT TRIES ROWS` or `close APP AT TRIES`.
fn start(sink: &mut Sink, line: &str, told: &mut Transcript) -> Option<SinkEnd> {
    let (word, words) = told.halves(line);
    let (application, words) = told.halves(words);
    match word {
        "append" => append(sink, application, words, told),
        "close" => close(sink, application, words, told),
        _ => {
            told.misspelled();
            None
        }
    }
}

/// Begins the append of a batch: `NUMBER AT TRIES ROWS`.
fn append(
    sink: &mut Sink,
    application: &str,
    words: &str,
    told: &mut Transcript,
) -> Option<SinkEnd> {
    let (number, words) = told.halves(words);
    let (at, words) = told.halves(words);
    let (tries, rows) = told.halves(words);
    let number = told.number(number);
    let at = told.moment(at);
    let tries = told.count(tries);
    let application = told.copy_of(application);
    let rows = spelled_rows(rows, told)?;
    if told.is_bad() {
        return None;
    }
    let known = Loaded::new(told.alloc);
    let session = SinkSession::append(
        told.alloc,
        application,
        number,
        rows,
        at,
        tries,
        true,
        known,
    );
    begin(sink, session, told)
}

/// Begins the close of a stream: `AT TRIES`.
fn close(
    sink: &mut Sink,
    application: &str,
    words: &str,
    told: &mut Transcript,
) -> Option<SinkEnd> {
    let (at, tries) = told.halves(words);
    let at = told.moment(at);
    let tries = told.count(tries);
    if told.is_bad() {
        return None;
    }
    let application = told.copy_of(application);
    let known = Loaded::new(told.alloc);
    let session = SinkSession::close(told.alloc, application, at, tries, true, known);
    begin(sink, session, told)
}

/// Adds how a session ended, if it did. Want of memory is told where it ran out in a call, and fails elsewhere.
fn tell_end(ended: &Option<SinkEnd>, is_short: bool, told: &mut Transcript) {
    if let Some(end) = ended {
        match &end.answer {
            Ok(SinkOutcome::Committed { version }) => told.tell("committed", version),
            Ok(SinkOutcome::Already { number }) => told.tell("already", number),
            Ok(SinkOutcome::Closed { version }) => told.tell("closed", version),
            Ok(SinkOutcome::AlreadyClosed) => told.say("closed already"),
            Err(SinkFault::Memory) if !is_short => told.lacks_memory(),
            Err(fault) => told.show(fault),
        }
    }
}
