//! Lists of events over a new store, and what is told by each.
//!
//! A line `case NAME` begins a case, and is told as `== NAME`. Each line behind it is an event; they happen one after
//! the other over a store in which nothing stands and on which nobody acts. Of each is told, in their order, what a
//! session told that ended by it, as a script would tell it, or `-`; then `short`, if the list fell short; and then
//! which table the store holds, with its entries. Where memory runs out in the list, `gave up` is told in place of all
//! that. Blank lines and those that begin with `#` are passed over. Actors and puts in flight go by number. The events
//! are:
//!
//! - `begin ACTOR LINE`: the actor begins what that line of a script does, a `create`, `append`, `close`, `checkpoint`
//!   or `tail`;
//! - `act ACTOR HOW`: the call that its session asks for is answered `once`, `twice`, `late`, `lost` or `short`;
//! - `answer ACTOR`: its session makes its first step, or takes the answer that waits;
//! - `lose ACTOR`: it is told in place of that answer that the call was lost;
//! - `die ACTOR`: its session is dropped;
//! - `land K`: the put in flight of that number, from 0, takes effect.
//!
//! A line `tries N` is no event: what the case begins behind it tries at most so many versions, and 16 before it.

use crate::tables::tell_table;
use case_words::{Transcript, head};
use json::Scratch;
use lake_script::{Line, Output, creation_of, job_of_task, reply_of};
use script_lines::{Reading, reading_of};
use std::alloc::{AllocError, Global};
use std::mem;
use store_core::MemoryStore;
use stream_world::{Event, How, run};
use table_jobs::{Job, JobEnd};

/// How many versions a session tries at most, until a line says otherwise.
const TRIES: u64 = 16;

/// Runs the cases of an input, and adds what is told of them.
pub fn tell_events(text: &str, told: &mut Transcript) {
    let mut has_case = false;
    let mut tries = TRIES;
    let mut events = Vec::new(told.alloc);
    for (place, line) in text.split('\n').enumerate() {
        if let Some(name) = line.strip_prefix("case ") {
            let ended = mem::replace(&mut events, Vec::new(told.alloc));
            if has_case {
                tell_case(ended, told);
            }
            told.tell("==", &name);
            has_case = true;
            tries = TRIES;
        } else if let Some(count) = line.strip_prefix("tries ") {
            tries = told.count(count);
        } else if !line.is_empty() && !line.starts_with('#') {
            add_event(&mut events, line, tries, told);
        }
        told.end_line(place.saturating_add(1));
    }
    if has_case {
        tell_case(events, told);
    }
}

/// Lets the events of a case happen, and adds what each told, and which table is left.
fn tell_case(events: Vec<Event>, told: &mut Transcript) {
    match run(told.alloc, MemoryStore::new(told.alloc), events) {
        Ok(ran) => {
            let is_short = ran.short();
            let mut ran = ran;
            for end in ran.told {
                tell_end(end, told);
            }
            if is_short {
                told.say("short");
            }
            tell_table(&mut ran.world.store.store, true, told);
        }
        Err(_error) => told.say("gave up"),
    }
}

/// Adds the reply to what a session told that ended by an event, or that none did.
fn tell_end(end: Option<JobEnd>, told: &mut Transcript) {
    let Some(end) = end else {
        return told.say("-");
    };
    let mut output = Output::new(told.alloc, Vec::new(told.alloc));
    told.note(reply_of(told.alloc, end).give(&mut output));
    told.note(output.flush());
    told.add(&output.writer);
}

/// Adds the event that a line spells. A session that it begins tries at most so many versions.
fn add_event(events: &mut Vec<Event>, line: &str, tries: u64, told: &mut Transcript) {
    let (word, rest) = told.halves(line);
    let (digits, rest) = head(rest);
    let number = told.number(digits);
    let event = match word {
        "begin" => match job_of(told.alloc, rest, tries) {
            Ok(Some(job)) => Event::Begin { actor: number, job },
            Ok(None) => return told.misspelled(),
            Err(_error) => return told.lacks_memory(),
        },
        "act" => Event::Act {
            actor: number,
            how: how_of(rest, told),
        },
        "answer" if rest.is_empty() => Event::Answer { actor: number },
        "lose" if rest.is_empty() => Event::LoseAnswer { actor: number },
        "die" if rest.is_empty() => Event::Die { actor: number },
        "land" if rest.is_empty() => Event::Land {
            place: number as usize,
        },
        _ => return told.misspelled(),
    };
    if !told.is_bad() {
        told.note(events.push(event));
    }
}

/// The job that a line of a script asks for. `None` where it asks for none that a session can do.
fn job_of(alloc: Global, line: &str, tries: u64) -> Result<Option<Job<'static>>, AllocError> {
    let mut scratch = Scratch::new(alloc);
    match reading_of(alloc, line.as_bytes(), &mut scratch, true)? {
        Reading::Asks(Line::Create { id, at, schema }) => {
            let made = creation_of(alloc, id, at, schema)?;
            Ok(Some(Job::Create(made)))
        }
        Reading::Asks(Line::Job(job)) => match job_of_task(alloc, job, tries.max(1), true)? {
            Some(job) => Ok(Some(job.owned()?)),
            None => Ok(None),
        },
        _ => Ok(None),
    }
}

/// The way of this name in which a call is answered.
fn how_of(word: &str, told: &mut Transcript) -> How {
    match word {
        "once" => How::Once,
        "twice" => How::Twice,
        "late" => How::Late,
        "lost" => How::Lost,
        "short" => How::Short,
        _ => {
            told.misspelled();
            How::Lost
        }
    }
}
