//! What a worker does at a seat: jobs of streams, one after the other, by what it learns of the log; and jobs amid the
//! commits of another seat.

ghost use Rattle.lake_workers.specs.Following.{IsKnownAt};

use crate::jobs::{job_of, tell_ended, tell_receipt};
use crate::seats::{Room, tell_at, tell_call};
use case_seats::Holder;
use case_words::{Transcript, head};
use lake_workers::{Prepared, prepare};
use log_hub::{Hub, Naming};
use sink_core::{SinkEnd, SinkTask};
use std::sync::Wait;
use table_jobs::{Job, JobEnd, StreamJob};
use table_log::Loaded;

/// Runs the items of a worker at a seat: `ITEM | ITEM ..`.
pub fn tell_works<J: Naming, R: Wait>(
    rt: &R,
    room: &mut Room<J>,
    place: usize,
    items: &str,
    told: &mut Transcript,
) {
    let Some(mut holder) = room.take(place, told) else {
        return;
    };
    let mut known = Loaded::new(told.alloc);
    for item in items.split(" | ") {
        let (word, line) = head(item);
        if let Ok(other) = word.parse::<u64>() {
            tell_at(rt, room, other as usize, line, told);
        } else if word == "prepared" {
            tell_work(rt, &room.hub, &mut holder, &mut known, line, true, told);
        } else {
            tell_work(rt, &room.hub, &mut holder, &mut known, item, false, told);
        }
    }
    room.put_back(place, holder);
}

/// Runs a stream's job by what is known of the log, with its file prepared before or not, and adds what is told.
fn tell_work<J: Naming, R: Wait>(
    rt: &R,
    hub: &Hub<J>,
    holder: &mut Holder<J>,
    known: &mut Loaded,
    line: &str,
    prepares: bool,
    told: &mut Transcript,
)
    requires { IsKnownAt holder.old.seat known.old }
    ensures { IsKnownAt holder.new.seat known.new }
{
    let Some(Job::Stream(job)) = job_of(line, told) else {
        return told.misspelled();
    };
    let file = if prepares {
        prepared(known, &job, told)
    } else {
        None
    };
    let ended = match holder.work(rt, hub, known, job, file) {
        Ok((answer, receipt)) => {
            let known = Loaded::new(told.alloc);
            Ok((JobEnd::Streamed(SinkEnd { known, answer }), receipt))
        }
        Err(error) => Err(error),
    };
    let receipt = tell_ended(ended, told);
    tell_receipt(receipt, told);
}

/// The file of a job's batch, prepared for the table's schema, as far as that is known; why it isn't is told.
fn prepared(known: &Loaded, job: &StreamJob<'_>, told: &mut Transcript) -> Option<Prepared> {
    let SinkTask::Append { number, rows } = &job.task else {
        told.misspelled();
        return None;
    };
    let Ok(schema) = known.snapshot.supports_write(told.alloc) else {
        told.say("no schema");
        return None;
    };
    let application = told.copy_of(&job.application);
    match prepare(told.alloc, schema, application, *number, rows) {
        Ok(file) => {
            told.with("prepared ", &file.count());
            told.with(" rows ", &file.bytes.len());
            told.tell(" bytes", &file.name);
            Some(file)
        }
        Err(fault) => {
            told.refuse(&fault);
            None
        }
    }
}

/// The line of an append without rows.
fn append_line(application: &str, number: u64, told: &mut Transcript) -> String {
    match format!(in told.alloc; "append {application} {number} 0 []") {
        Ok(line) => line,
        Err(_error) => {
            told.lacks_memory();
            String::new(told.alloc)
        }
    }
}

/// So many appends of an application without rows by a worker at a seat: `N APP`. What the last one told.
pub fn tell_appends<J: Naming, R: Wait>(
    rt: &R,
    room: &mut Room<J>,
    place: usize,
    words: &str,
    told: &mut Transcript,
) {
    let (count, application) = head(words);
    let count = told.number(count);
    let Some(mut holder) = room.take(place, told) else {
        return;
    };
    let mut known = Loaded::new(told.alloc);
    let mut last = Transcript::new(told.alloc);
    for number in 0..count {
        last = Transcript::new(told.alloc);
        let line = append_line(application, number, &mut last);
        tell_work(
            rt,
            &room.hub,
            &mut holder,
            &mut known,
            &line,
            false,
            &mut last,
        );
    }
    told.heed(&last);
    told.add(last.bytes());
    room.put_back(place, holder);
}

/// Drives the session of a line's job, while another seat does what a line says in front of one of its calls: `M C LINE
/// | LINE`.
pub fn tell_amid<J: Naming, R: Wait>(
    rt: &R,
    room: &mut Room<J>,
    place: usize,
    words: &str,
    told: &mut Transcript,
) {
    let (other, words) = head(words);
    let (at, lines) = head(words);
    let other = told.number(other) as usize;
    let at = told.number(at);
    let Some(mut holder) = room.take(place, told) else {
        return;
    };
    if let Some(mut rival) = room.take(other, told) {
        tell_both(rt, &room.hub, &mut holder, &mut rival, at, lines, told);
        room.put_back(other, rival);
    }
    room.put_back(place, holder);
}

/// Drives the session of the first line's job, while the rival does what the second one says in front of the call of
/// that number. What the rival is told comes first.
fn tell_both<J: Naming, R: Wait>(
    rt: &R,
    hub: &Hub<J>,
    holder: &mut Holder<J>,
    rival: &mut Holder<J>,
    at: u64,
    lines: &str,
    told: &mut Transcript,
) {
    let Some((line, aside)) = lines.split_once(" | ") else {
        return told.misspelled();
    };
    let Some(job) = job_of(line, told) else {
        return;
    };
    let mut call = 0u64;
    let ended = holder.drive_amid(rt, hub, job, |_request| {
        if call == at {
            tell_call(rt, hub, rival, aside, told);
        }
        call = call.saturating_add(1);
    });
    if call <= at {
        told.misspelled();
    }
    let receipt = tell_ended(ended, told);
    tell_receipt(receipt, told);
}
