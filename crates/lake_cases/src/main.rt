//! A program that reads cases from standard input, and prints what comes of each.
//!
//! A line `>>>> KIND` begins the cases of a kind, and is printed. What stands in front of the first one is a heading. A
//! line that is none of its kind is told as bad, by its number behind that line. The kinds are:
//!
//! - `scripts`: scripts and command lines, each on a new store or folder, what they write, how they end, and which
//!   table they leave (`scripts.rt`);
//! - `calls`: calls of a store that loses them, which commits conflict with a candidate, how the puts of a commit end,
//!   and what sessions ask for and tell (`calls.rt`);
//! - `events`: lists of events over a new store, what is told by each, and which table is left (`events.rt`);
//! - `logs`: logs that grow commit by commit, and what the snapshot of each answers (`tell_logs` of the library
//!   `case_logs`).
#![tactic(auto)]

mod calls;
mod commands;
mod contests;
mod events;
mod plain;
mod reads;
mod scripts;
mod sinks;
mod tables;

use case_logs::tell_logs;
use case_words::Transcript;
use std::io;
use std::io::{Read, Write};
use std::process::ExitCode;

/// Tells the cases on standard input.
fn main(rt: HostRuntime) -> io::Result<ExitCode> {
    let text = io::read_to_string(rt.alloc(), rt.stdin())?;
    let mut told = Transcript::new(rt.alloc());
    for section in text.split("\n>>>> ") {
        tell_section(&rt, section, &mut told);
    }
    rt.stdout().write_all(told.bytes())?;
    if told.is_short() {
        eprintln!(rt; "out of memory")?;
        return Ok(ExitCode::FAILURE);
    }
    Ok(ExitCode::SUCCESS)
}

/// Tells the cases of one kind. A heading has none.
fn tell_section(rt: &HostRuntime, section: &str, told: &mut Transcript) {
    let (kind, text) = section.split_once('\n').unwrap_or((section, ""));
    if kind.starts_with('#') {
        return;
    }
    let text = text.strip_suffix('\n').unwrap_or(text);
    told.tell(">>>>", &kind);
    match kind {
        "scripts" => scripts::tell_scripts(rt, text, told),
        "calls" => calls::tell_calls(text, told),
        "events" => events::tell_events(text, told),
        "logs" => tell_logs(text, told),
        _ => told.say("no such cases"),
    }
}
