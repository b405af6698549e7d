//! What threads do at once, each at a seat of its own.

use crate::rounds::{Rounds, make_rounds};
use crate::seats::{Room, tell_job};
use case_seats::Holder;
use case_words::{Transcript, head};
use log_hub::{Hub, Naming};
use std::alloc::{AllocError, Global};
use std::sync::Wait;
use std::thread;
use std::thread::Threads;

/// What a thread does at its seat.
#[derive(Drop)]
pub enum Work {
    /// It drives the session of a line's job.
    Line(String),
    /// It makes calls, many times over.
    Calls(Rounds),
}

/// A thread's seat, with the place where that belongs, and what is to be done there.
#[derive(Drop)]
pub struct Task<J: Naming> {
    place: usize,
    holder: Holder<J>,
    work: Work,
}

/// A seat that comes back, what was told there, and the version of the receipt that it was given.
#[derive(Drop)]
pub struct Done<J: Naming> {
    place: usize,
    holder: Holder<J>,
    told: Transcript,
    receipt: Option<u64>,
}

/// Takes the seat of a place for a thread.
pub fn add_task<J: Naming>(
    tasks: &mut Vec<Task<J>>,
    room: &mut Room<J>,
    place: usize,
    work: Work,
    told: &mut Transcript,
) {
    if let Some(holder) = room.take(place, told) {
        told.note(tasks.push(Task {
            place,
            holder,
            work,
        }));
    }
}

/// Does a task.
fn do_task<J: Naming, R: Wait>(rt: &R, alloc: Global, hub: &Hub<J>, task: Task<J>) -> Done<J> {
    let Task {
        place,
        holder,
        work,
    } = task;
    let mut holder = holder;
    let mut told = Transcript::new(alloc);
    let receipt = match work {
        Work::Line(line) => tell_job(rt, hub, &mut holder, &line, &mut told),
        Work::Calls(rounds) => {
            told.note(make_rounds(rt, alloc, hub, &mut holder, rounds));
            None
        }
    };
    Done {
        place,
        holder,
        told,
        receipt,
    }
}

/// Does tasks at once, a thread for each.
fn at_once<J: Naming + Send + Sync, R: Threads + Wait + Sync>(
    rt: &R,
    alloc: Global,
    hub: &Hub<J>,
    tasks: Vec<Task<J>>,
) -> Result<Vec<Done<J>>, AllocError> {
    thread::map_vec(rt, tasks, &|task| do_task(rt, alloc, hub, task))
}

/// Does tasks at once, a thread for each, and puts the seats back. What was told, in the order of its bytes, and the
/// versions of the receipts, in theirs.
pub fn tell_at_once<J: Naming + Send + Sync, R: Threads + Wait + Sync>(
    rt: &R,
    room: &mut Room<J>,
    tasks: Vec<Task<J>>,
    told: &mut Transcript,
) {
    let Ok(all) = at_once(rt, told.alloc, &room.hub, tasks) else {
        return told.lacks_memory();
    };
    let mut texts = Vec::new(told.alloc);
    let mut receipts = Vec::new(told.alloc);
    for one in all {
        told.heed(&one.told);
        if one.told.is_bad() {
            told.misspelled();
        }
        let text = told.bytes_of(one.told.bytes());
        told.note(texts.push(text));
        if let Some(version) = one.receipt {
            told.note(receipts.push(version));
        }
        room.put_back(one.place, one.holder);
    }
    tell_sorted(texts, receipts, told);
}

/// Adds texts in the order of their bytes, and then receipts in that of their versions.
fn tell_sorted(texts: Vec<Vec<u8>>, receipts: Vec<u64>, told: &mut Transcript) {
    let mut texts = texts;
    let mut receipts = receipts;
    told.note(texts.sort());
    told.note(receipts.sort());
    for text in &texts {
        told.add(text);
    }
    for version in &receipts {
        told.tell("receipt", version);
    }
}

/// Drives the sessions of two jobs at once: `K LINE | K LINE`.
pub fn tell_two<J: Naming + Send + Sync, R: Threads + Wait + Sync>(
    rt: &R,
    room: &mut Room<J>,
    words: &str,
    told: &mut Transcript,
) {
    let Some((one, other)) = words.split_once(" | ") else {
        return told.misspelled();
    };
    let mut tasks = Vec::new(told.alloc);
    for words in [one, other] {
        let (place, line) = head(words);
        let place = told.number(place);
        let work = Work::Line(told.copy_of(line));
        add_task(&mut tasks, room, place as usize, work, told);
    }
    if !told.is_bad() {
        tell_at_once(rt, room, tasks, told);
    }
}
