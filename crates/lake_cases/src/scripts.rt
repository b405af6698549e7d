//! Scripts and command lines: each is run, and what came of it is told.
//!
//! A line `== NAME` begins a case. The lines behind it, up to the next such line, are its script, as they are; those
//! that begin with `>> ` are directives instead (`Script::direct` of the library `case_calls` lists them). In the words
//! of a command line `␣` stands for a space. `>> let NAME TEXT` names a text for the cases behind it. What stands before
//! the first case is a heading, of which only such names count.

use crate::commands::tell_runs;
use crate::plain::tell_plain;
use crate::tables::{tell_objects, tell_table};
use case_calls::{CaseStore, Script};
use case_words::{Bindings, Transcript, add_line};
use lake_script::{End, Input, Outcome, Output};
use sha2::{Digest, Sha256};
use std::alloc::Global;
use std::mem;
use store_core::MemoryStore;
use world_script::{Ran, run};

/// Runs the cases of an input, and adds what is told of them.
pub fn tell_scripts(rt: &HostRuntime, text: &str, told: &mut Transcript) {
    let mut names = Bindings::new(told.alloc);
    let mut script = Script::new(told.alloc, "");
    for (place, line) in text.split('\n').enumerate() {
        if let Some(name) = line.strip_prefix("== ") {
            tell_case(rt, &mut script, told);
            script = Script::new(told.alloc, name);
        } else if let Some(directive) = line.strip_prefix(">> ") {
            direct(&mut names, &mut script, directive, told);
        } else {
            add_line(&mut script.text, line, told);
        }
        told.end_line(place.saturating_add(1));
    }
    tell_case(rt, &mut script, told);
}

/// Names a text, or shapes the case that is read.
fn direct<'a>(
    names: &mut Bindings<'a>,
    script: &mut Script<'a>,
    directive: &'a str,
    told: &mut Transcript,
) {
    match directive.strip_prefix("let ") {
        Some(rest) => {
            let (name, text) = told.halves(rest);
            names.name(name, text, told);
        }
        None => script.direct(names, directive, told),
    }
}

/// Runs a case, and adds what is told of it: its name, what was written, how it ended, and which table is left. A
/// heading is none.
fn tell_case(rt: &HostRuntime, script: &mut Script<'_>, told: &mut Transcript) {
    if script.name.is_empty() {
        return;
    }
    told.tell("==", &script.name);
    if !script.runs.is_empty() {
        tell_runs(rt, script, told);
    } else if script.has("plain") {
        tell_plain(&script.text, told);
    } else {
        tell_script(script, told);
    }
}

/// Runs a script, and adds what came of it.
fn tell_script(script: &mut Script<'_>, told: &mut Transcript) {
    let mut written = Vec::new(told.alloc);
    let outcome = run_script(script, &mut written, told);
    tell_written(&written, script.number_of("last"), told);
    match outcome.end {
        End::Done => told.text("end Done"),
        End::BadLine(number) => told.with("end BadLine ", &number),
        End::NotRead => told.text("end NotRead"),
        End::NotWritten => told.text("end NotWritten"),
    }
    told.text(if outcome.is_short() { " short\n" } else { "\n" });
    let tells_entries = script.has("entries");
    let tells_objects = script.has("objects");
    tell_table(&mut script.store.store, tells_entries, told);
    if tells_objects {
        tell_objects(&mut script.store.store, told);
    }
}

/// Runs a script over its store, and adds what it writes.
fn run_script(script: &mut Script<'_>, written: &mut Vec<u8>, told: &mut Transcript) -> Outcome {
    let none = CaseStore::new(
        told.alloc,
        MemoryStore::new(told.alloc),
        Vec::new(told.alloc),
    );
    let store = mem::replace(&mut script.store, none);
    let Ran { outcome, store, .. } = run_over(script, &script.text, store, written, told.alloc);
    script.store = store;
    outcome
}

/// Runs a text as a script over a store, and adds what it writes.
fn run_over(
    script: &Script<'_>,
    text: &[u8],
    store: CaseStore,
    written: &mut Vec<u8>,
    alloc: Global,
) -> Ran<CaseStore> {
    let mut input = Input::new(script.source(text));
    let mut output = Output::new(alloc, script.sink(written));
    let use_checkpoints = !script.has("replays");
    run(alloc, &mut input, &mut output, store, use_checkpoints)
}

/// Adds what was written. Of many lines the last alone are told, and of those before them the count and the SHA-256.
/// A last line that isn't ended is ended by a backslash.
pub fn tell_written(written: &[u8], last: usize, told: &mut Transcript) {
    let count = written.split_inclusive(|byte| *byte == b'\n').count();
    let hidden = count.saturating_sub(last);
    let mut hasher = Sha256::new();
    let mut shown = Transcript::new(told.alloc);
    for (index, line) in written.split_inclusive(|byte| *byte == b'\n').enumerate() {
        if index < hidden {
            hasher.update(line);
        } else {
            shown.add(line);
        }
    }
    if hidden > 0 {
        tell_hidden(hidden, hasher, told);
    }
    told.add(shown.bytes());
    told.heed(&shown);
    if !written.is_empty() && !written.ends_with(b"\n") {
        told.text("\\\n");
    }
}

/// Adds how many lines aren't told, and their SHA-256.
fn tell_hidden(count: usize, hasher: Sha256, told: &mut Transcript) {
    match hex::encode(told.alloc, hasher.finalize()) {
        Ok(digest) => {
            told.with("", &count);
            told.tell(" lines", &digest);
        }
        Err(_error) => told.lacks_memory(),
    }
}
