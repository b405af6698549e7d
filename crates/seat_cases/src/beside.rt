//! Jobs through the seats of a hub beside the same ones over a store in one thread: what they tell, ask for and leave
//! is to be the same.

ghost use Rattle.std.specs.Prelude.{◌≡◌};

use crate::endings;
use crate::jobs::{job_of, run_over, tell_end, tell_ended};
use crate::seats::{Room, tell_job};
use case_seats::Holder;
use case_words::Transcript;
use log_hub::{Hub, Naming, Opened};
use session_core::{Request, Session, Step, ask};
use std::alloc::Global;
use std::marker::Brand;
use std::sync::Wait;
use store_core::{MemoryStore, Store};
use table_jobs::JobSession;

/// A line's job, and the lines of others that are done in front of its session's call of this number, from 0 on.
#[derive(Clone, Copy)]
struct Trial<'a> {
    line: &'a str,
    others: &'a str,
    at: u64,
}

/// What is heard of the jobs of a trial.
#[derive(Drop)]
struct Heard {
    /// The reply to the line.
    reply: Transcript,
    /// The replies to the others, where they are done.
    others: Transcript,
    /// What the line's session asks for, a line for each call.
    requests: Transcript,
    /// How many calls these are.
    calls: u64,
    /// What stands in the end.
    left: Transcript,
}

impl Heard {
    /// Nothing is heard.
    fn new(alloc: Global) -> Heard {
        Heard {
            reply: Transcript::new(alloc),
            others: Transcript::new(alloc),
            requests: Transcript::new(alloc),
            calls: 0,
            left: Transcript::new(alloc),
        }
    }

    /// Adds a call of the line's session.
    fn hear(&mut self, request: &Request) {
        self.calls = self.calls.saturating_add(1);
        match request {
            Request::List => self.requests.say("list"),
            Request::Get(name) => self.requests.tell("get", name),
            Request::PutFile(name, bytes) => self.requests.tell_pair("file", name, &bytes.len()),
            Request::PutCommit(version, commit) => {
                self.requests.tell_pair("commit", version, &commit.len())
            }
        }
    }

    /// Adds what stands in a store in the end: each name in order, how many bytes it has, and these.
    fn leave(&mut self, store: MemoryStore) {
        let mut store = store;
        let Ok(names) = store.list() else {
            return self.left.lacks_memory();
        };
        for name in names.as_slice() {
            match store.get(name) {
                Ok(Some(bytes)) => {
                    self.left.tell(name, &bytes.len());
                    self.left.add(&bytes);
                }
                _ => self.left.lacks_memory(),
            }
        }
    }

    /// Adds the replies and the calls, behind a line that says of which jobs.
    fn tell(&self, of: &str, told: &mut Transcript) {
        told.say(of);
        told.add(self.reply.bytes());
        told.add(self.others.bytes());
        told.add(self.requests.bytes());
    }

    /// Notes whether memory ran out.
    fn note(&self, told: &mut Transcript) {
        told.heed(&self.reply);
        told.heed(&self.others);
        told.heed(&self.requests);
        told.heed(&self.left);
    }
}

/// Does a line's job through a seat and over a store, with the jobs of others in front of each of its calls in turn,
/// and at last alone, and adds what is told: `LINE | OTHER ..`. Each time the store begins as it stands, and stays so.
pub fn tell_beside<R: Wait>(rt: &R, store: &mut MemoryStore, words: &str, told: &mut Transcript) {
    let Some((line, others)) = words.split_once(" | ") else {
        return told.misspelled();
    };
    for line in words.split(" | ") {
        let _job = job_of(line, told);
    }
    if told.is_bad() {
        return;
    }
    for at in 0..u64::MAX {
        let goes_on = tell_trial(rt, store, Trial { line, others, at }, told);
        if !goes_on || told.is_short() {
            return;
        }
    }
}

/// Does the jobs of a trial both ways over copies of a store, and adds what is told. Whether the line's session came to
/// the call that the others are done in front of.
fn tell_trial<R: Wait>(
    rt: &R,
    store: &mut MemoryStore,
    trial: Trial<'_>,
    told: &mut Transcript,
) -> bool {
    let mut through = Heard::new(told.alloc);
    let mut over = Heard::new(told.alloc);
    match Opened::open(rt, told.alloc, copy_of(store, told)) {
        Ok(opened) => do_through::<Brand, R>(rt, opened, trial, &mut through),
        Err((fault, _store)) => {
            told.show(&fault);
            return false;
        }
    }
    do_over(copy_of(store, told), trial, &mut over);
    through.note(told);
    over.note(told);
    tell_both(trial, &through, &over, told);
    trial.at < through.calls || trial.at < over.calls
}

/// A copy of a store.
fn copy_of(store: &mut MemoryStore, told: &mut Transcript) -> MemoryStore {
    let mut copy = MemoryStore::new(told.alloc);
    let Ok(names) = store.list() else {
        told.lacks_memory();
        return copy;
    };
    for name in names.as_slice() {
        match store.get(name) {
            Ok(Some(bytes)) => {
                if copy.put_absent(name, bytes).is_err() {
                    told.lacks_memory();
                }
            }
            _ => told.lacks_memory(),
        }
    }
    copy
}

/// Does the jobs of a trial through the two seats of a hub that is opened: the line's through the first one, those of
/// the others through the second. Then the hub ends.
fn do_through<J: Naming, R: Wait>(rt: &R, opened: Opened, trial: Trial<'_>, heard: &mut Heard)
    requires table { opened.table ≡ J.table }
    requires badge { opened.badge ≡ J.badge }
{
    let Ok((hub, seats)) = opened.seats::<J>(2) else {
        return heard.left.lacks_memory();
    };
    let mut room = Room::new(hub, seats, &mut heard.left);
    if let Some(mut holder) = room.take(0, &mut heard.left) {
        if let Some(mut rival) = room.take(1, &mut heard.left) {
            drive(rt, &room.hub, &mut holder, &mut rival, trial, heard);
            room.put_back(1, rival);
        }
        room.put_back(0, holder);
    }
    let mut ended = Transcript::new(heard.left.alloc);
    let store = endings::tell_end(rt, room, false, &mut ended);
    heard.left.heed(&ended);
    heard.leave(store);
}

/// Drives the session of a trial's line through a seat, while the rival does the jobs of the others.
fn drive<J: Naming, R: Wait>(
    rt: &R,
    hub: &Hub<J>,
    holder: &mut Holder<J>,
    rival: &mut Holder<J>,
    trial: Trial<'_>,
    heard: &mut Heard,
) {
    let Some(job) = job_of(trial.line, &mut heard.reply) else {
        return;
    };
    let ended = holder.drive_amid(rt, hub, job, |request| {
        if heard.calls == trial.at {
            drive_others(rt, hub, rival, trial.others, &mut heard.others);
        }
        heard.hear(request);
    });
    let _receipt = tell_ended(ended, &mut heard.reply);
}

/// Drives the sessions of lines' jobs through a seat, one after the other, and adds the replies.
fn drive_others<J: Naming, R: Wait>(
    rt: &R,
    hub: &Hub<J>,
    rival: &mut Holder<J>,
    others: &str,
    told: &mut Transcript,
) {
    for line in others.split(" | ") {
        let _receipt = tell_job(rt, hub, rival, line, told);
    }
}

/// Does the jobs of a trial over a store, in one thread: those of the others between two steps of the line's session.
fn do_over(store: MemoryStore, trial: Trial<'_>, heard: &mut Heard) {
    let mut store = store;
    let Some(job) = job_of(trial.line, &mut heard.reply) else {
        return;
    };
    let alloc = heard.reply.alloc;
    let mut session = JobSession::new(alloc, job);
    let mut reply = None;
    'calls: loop {
        match session.next(reply) {
            Step::Done(end) => {
                tell_end(end, &mut heard.reply);
                return heard.leave(store);
            }
            Step::Ask(request) => {
                if heard.calls == trial.at {
                    for line in trial.others.split(" | ") {
                        run_over(&mut store, line, &mut heard.others);
                    }
                }
                heard.hear(&request);
                reply = Some(ask(alloc, &mut store, request));
            }
        }
    }
}

/// Adds the reply to a trial's line, where both ways are the same; else what differs, and then both.
fn tell_both(trial: Trial<'_>, through: &Heard, over: &Heard, told: &mut Transcript) {
    told.with("", &trial.at);
    if through.calls <= trial.at {
        told.text(" alone");
    }
    let replies = through.reply.bytes() == over.reply.bytes()
        && through.others.bytes() == over.others.bytes();
    let requests = through.requests.bytes() == over.requests.bytes();
    let stores = through.left.bytes() == over.left.bytes();
    if replies && requests && stores {
        told.text(" ");
        return told.add(through.reply.bytes());
    }
    told.text(" differs in");
    for (same, word) in [
        (replies, " replies"),
        (requests, " requests"),
        (stores, " stores"),
    ] {
        if !same {
            told.text(word);
        }
    }
    told.say("");
    through.tell("through a seat", told);
    over.tell("over a store", told);
}
