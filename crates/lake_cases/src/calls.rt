//! Calls of a store that loses them, and sessions over it, line by line.
//!
//! A line `case NAME` begins a case, with a store in which nothing stands and no candidate, and is told as `== NAME`.
//! Each other line is one of those below, or a call of that store or what becomes of calls (`tell_call` of the library
//! `case_calls` lists these). Blank lines and those that begin with `#` are passed over.
//!
//! - `create ID AT SCHEMA`: a `CreateSession` is driven to its end, with the moment in milliseconds, below 2^63;
//! - `action JSON`: a line of the commit that is begun;
//! - `candidate WORD ..`: the commit that is begun is the candidate, which reads what each word names besides its own,
//!   be it `application=ID` or `domain=NAME`;
//! - `conflict`: what of the commit that is begun conflicts with the candidate;
//! - `race V TRIES`: a `CommitSession` of the candidate, whose bytes are its lines, is driven to its end: from version
//!   V on, at most so many versions. It tells how many winners were met;
//! - `append APP NUMBER AT TRIES ROWS` and `close APP AT TRIES`: the append of a batch, whose rows are a JSON array, or
//!   `fill N` for so many rows of a text of 1 MiB, or the close of an application's stream is begun, at a moment in
//!   milliseconds, below 2^63, which tries at most so many versions. It tells what it asks for first, of a file also
//!   how many bytes it has;
//! - `step`: the call that it asks for is made. It tells what it asks for next, or how it ended;
//! - `memory`: memory runs out in the call that it asks for, which isn't made. It tells how it ended;
//! - `start ACTOR LINE`, `step ACTOR` and `memory ACTOR`: the same, of an append or a close beside others, under a name
//!   of its own;
//! - `checkpoint`: a `CheckpointSession` is driven to its end. It tells the newest version, whose checkpoint was put;
//! - `read MAX OFFSET`: a read is begun that hands out at most so many rows. It tells what it asks for first;
//! - `turn` and `starve`: the call that it asks for is made, or memory runs out in it. It tells what it asks for next,
//!   or the rows and the offset that it handed out, or why it didn't.

use crate::contests::Contest;
use crate::reads::{Reader, begin_read, go_on_reading};
use crate::sinks::{Sinks, tell_sink};
use case_calls::{CaseStore, tell_call};
use case_words::{Transcript, head};
use commit_core::CreateSession;
use session_core::drive;
use snapshot_core::{CheckpointEnd, CheckpointSession, SnapshotFault};
use std::alloc::Global;
use std::collections::BTreeMap;
use store_core::MemoryStore;
use table_log::Loaded;

/// What a case has.
struct Case {
    store: CaseStore,
    contest: Contest,
    sinks: Sinks,
    reader: Reader,
}

// One call where it is dropped.
impl Drop for Case {
    fn drop(self) {
        let Case {
            store: _,
            contest: _,
            sinks: _,
            reader: _,
        } = self;
    }
}

/// Runs the cases of an input, and adds what is told of them.
pub fn tell_calls(text: &str, told: &mut Transcript) {
    let mut case = Case::new(told.alloc);
    for (place, line) in text.split('\n').enumerate() {
        if let Some(name) = line.strip_prefix("case ") {
            case = Case::new(told.alloc);
            told.tell("==", &name);
        } else if !line.is_empty() && !line.starts_with('#') {
            case.take(line, told);
        }
        told.end_line(place.saturating_add(1));
    }
}

impl Case {
    /// A store in which nothing stands, and which loses no call yet, no candidate, and nothing that waits.
    fn new(alloc: Global) -> Case {
        Case {
            store: CaseStore::new(alloc, MemoryStore::new(alloc), Vec::new(alloc)),
            contest: Contest::new(alloc),
            sinks: BTreeMap::new(alloc),
            reader: None,
        }
    }

    /// Does what a line says, and adds how it ended.
    fn take(&mut self, line: &str, told: &mut Transcript) {
        let (word, rest) = head(line);
        let store = &mut self.store;
        match word {
            "action" => self.contest.add(rest, told),
            "candidate" => self.contest.make_candidate(rest, told),
            "conflict" if rest.is_empty() => self.contest.tell_conflict(told),
            "race" => self.contest.race(store, rest, told),
            "append" | "close" => tell_sink(store, &mut self.sinks, "", line, told),
            "start" => {
                let (actor, job) = told.halves(rest);
                tell_sink(store, &mut self.sinks, actor, job, told);
            }
            "step" | "memory" => tell_sink(store, &mut self.sinks, rest, word, told),
            "read" => begin_read(&mut self.reader, rest, told),
            "turn" | "starve" if rest.is_empty() => {
                go_on_reading(store, &mut self.reader, word == "starve", told)
            }
            "create" => create(store, rest, told),
            "checkpoint" if rest.is_empty() => tell_checkpoint(store, told),
            _ => tell_call(store, word, rest, told),
        }
    }
}

/// Drives the creation of a table, and adds how it ended: `ID AT SCHEMA`.
fn create(store: &mut CaseStore, words: &str, told: &mut Transcript) {
    let (id, words) = told.halves(words);
    let (at, schema) = told.halves(words);
    let at = told.moment(at);
    let id = told.copy_of(id);
    let schema = told.copy_of(schema);
    if told.is_bad() {
        return;
    }
    let mut session = CreateSession::new(told.alloc, id, at, schema);
    match drive(told.alloc, store, &mut session) {
        Ok(()) => told.say("created"),
        Err(fault) => told.refuse(&fault),
    }
}

/// Puts the checkpoint of the newest version, and adds that version, or why none was put.
fn tell_checkpoint(store: &mut CaseStore, told: &mut Transcript) {
    let mut session = CheckpointSession::new(told.alloc, true, Loaded::new(told.alloc));
    let CheckpointEnd { answer, .. } = drive(told.alloc, store, &mut session);
    match answer {
        Ok(version) => told.tell("checkpointed", &version),
        Err(SnapshotFault::Memory) => told.lacks_memory(),
        Err(fault) => told.show(&fault),
    }
}
