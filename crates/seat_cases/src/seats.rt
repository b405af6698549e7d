//! The lines of a case at an open hub: what its seats ask for.

use crate::endings::tell_finish;
use crate::jobs::{job_of, tell_ended, tell_receipt};
use crate::lines::Lines;
use crate::readers::tell_follows;
use crate::rounds::tell_rounds;
use crate::stores::{bytes_of, tell_put};
use crate::threads::tell_two;
use crate::workers::{tell_amid, tell_appends, tell_works};
use case_seats::Holder;
use case_words::{Transcript, head};
use log_hub::{Hub, Naming, Seat};
use std::sync::Wait;
use std::thread::Threads;
use store_core::MemoryStore;

/// A hub and its seats, each at the place of its number. A place is empty while a thread or a worker has its seat.
#[derive(Drop)]
pub struct Room<J: Naming> {
    pub hub: Hub<J>,
    pub places: Vec<Option<Holder<J>>>,
}

impl<J: Naming> Room<J> {
    /// A hub and its seats, of which none was given a receipt.
    pub fn new(hub: Hub<J>, seats: Vec<Seat<J>>, told: &mut Transcript) -> Room<J> {
        let mut places = Vec::new(told.alloc);
        for seat in seats {
            told.note(places.push(Some(Holder::new(told.alloc, seat))));
        }
        Room { hub, places }
    }

    /// Takes the seat of a place. A place without one is misspelled.
    pub fn take(&mut self, place: usize, told: &mut Transcript) -> Option<Holder<J>> {
        let found = match self.places.get_mut(place) {
            Some(found) => found.take(),
            None => None,
        };
        if found.is_none() {
            told.misspelled();
        }
        found
    }

    /// Puts a seat back into its place.
    pub fn put_back(&mut self, place: usize, holder: Holder<J>) {
        if let Some(found) = self.places.get_mut(place) {
            *found = Some(holder);
        }
    }
}

/// Does what the lines say at a hub, up to the one that ends it, to a new case, or to a line that is bad. The store
/// that is left: an empty one where the hub doesn't end.
pub fn tell_seats<J: Naming + Send + Sync, R: Threads + Wait + Sync>(
    rt: &R,
    room: Room<J>,
    lines: &mut Lines<'_>,
    told: &mut Transcript,
) -> MemoryStore {
    let mut room = room;
    for _ in rt.forever() {
        if told.is_bad() || lines.begins_case() {
            break;
        }
        let Some(line) = lines.take() else {
            break;
        };
        let (word, rest) = head(line);
        match word {
            "finish" => match tell_finish(rt, room, rest, told) {
                Ok(store) => return store,
                Err(kept) => room = kept,
            },
            "threads" => tell_two(rt, &mut room, rest, told),
            "calls" => tell_rounds(rt, &mut room, rest, told),
            "" => {}
            _ => tell_seat(rt, &mut room, word, rest, told),
        }
    }
    MemoryStore::new(told.alloc)
}

/// Does what a line says at the seat of a number.
pub fn tell_seat<J: Naming, R: Wait>(
    rt: &R,
    room: &mut Room<J>,
    word: &str,
    line: &str,
    told: &mut Transcript,
) {
    let number = told.number(word);
    if told.is_bad() {
        return;
    }
    let place = number as usize;
    match head(line) {
        ("works", items) => return tell_works(rt, room, place, items, told),
        ("follows", items) => return tell_follows(rt, room, place, items, told),
        ("appends", words) => return tell_appends(rt, room, place, words, told),
        ("amid", words) => return tell_amid(rt, room, place, words, told),
        _ => {}
    }
    tell_at(rt, room, place, line, told);
}

/// Does what a line says at the seat of a place by itself.
pub fn tell_at<J: Naming, R: Wait>(
    rt: &R,
    room: &mut Room<J>,
    place: usize,
    line: &str,
    told: &mut Transcript,
) {
    match room.places.get_mut(place) {
        Some(Some(holder)) => tell_call(rt, &room.hub, holder, line, told),
        _ => told.misspelled(),
    }
}

/// Does what a line says at a seat.
pub fn tell_call<J: Naming, R: Wait>(
    rt: &R,
    hub: &Hub<J>,
    holder: &mut Holder<J>,
    line: &str,
    told: &mut Transcript,
) {
    let (word, rest) = head(line);
    match word {
        "list" if rest.is_empty() => tell_names(rt, hub, holder, told),
        "get" => tell_object(rt, hub, holder, rest, told),
        "read" if rest.is_empty() => tell_read(rt, hub, holder, told),
        "reads" if rest.is_empty() => {
            read_all(rt, hub, holder, told);
            told.tell("log", &holder.version());
        }
        "log" if rest.is_empty() => told.tell("log", &holder.version()),
        "file" => tell_file(rt, hub, holder, rest, told),
        _ => {
            let receipt = tell_job(rt, hub, holder, line, told);
            tell_receipt(receipt, told);
        }
    }
}

/// Adds the names that stand.
fn tell_names<J: Naming, R: Wait>(
    rt: &R,
    hub: &Hub<J>,
    holder: &mut Holder<J>,
    told: &mut Transcript,
) {
    match holder.list(rt, hub) {
        Ok(names) => {
            told.tell("names", &names.as_slice().len());
            for name in names.as_slice() {
                told.say(name);
            }
        }
        Err(_error) => told.lacks_memory(),
    }
}

/// Adds how many bytes stand under a name.
fn tell_object<J: Naming, R: Wait>(
    rt: &R,
    hub: &Hub<J>,
    holder: &mut Holder<J>,
    name: &str,
    told: &mut Transcript,
) {
    match holder.get(rt, hub, name) {
        Ok(Some(bytes)) => told.tell("bytes", &bytes.len()),
        Ok(None) => told.say("none"),
        Err(_error) => told.lacks_memory(),
    }
}

/// Adds the commit right behind the log that the seat has seen.
fn tell_read<J: Naming, R: Wait>(
    rt: &R,
    hub: &Hub<J>,
    holder: &mut Holder<J>,
    told: &mut Transcript,
) {
    let version = holder.version();
    match holder.read(rt, hub) {
        Ok(Some(commit)) => {
            told.with("commit ", &commit.len());
            told.tell(" at", &version);
        }
        Ok(None) => told.say("none"),
        Err(_error) => told.lacks_memory(),
    }
}

/// Reads the commits behind the log that the seat has seen, up to the last one.
fn read_all<J: Naming, R: Wait>(
    rt: &R,
    hub: &Hub<J>,
    holder: &mut Holder<J>,
    told: &mut Transcript,
) {
    for _ in rt.forever() {
        match holder.read(rt, hub) {
            Ok(Some(_commit)) => {}
            Ok(None) => return,
            Err(_error) => return told.lacks_memory(),
        }
    }
}

/// Puts an object whose name is neither a commit's nor a checkpoint's: `NAME HEX`.
fn tell_file<J: Naming, R: Wait>(
    rt: &R,
    hub: &Hub<J>,
    holder: &mut Holder<J>,
    words: &str,
    told: &mut Transcript,
) {
    let (name, digits) = head(words);
    let bytes = bytes_of(digits, told);
    if told.is_bad() {
        return;
    }
    match holder.put_file(rt, hub, name, bytes) {
        Ok(Some(put)) => tell_put(put, told),
        Ok(None) => told.misspelled(),
        Err(_error) => told.lacks_memory(),
    }
}

/// Drives the session of a line's job through a seat, and adds its reply. The version of the receipt that the seat was
/// given.
pub fn tell_job<J: Naming, R: Wait>(
    rt: &R,
    hub: &Hub<J>,
    holder: &mut Holder<J>,
    line: &str,
    told: &mut Transcript,
) -> Option<u64> {
    let job = job_of(line, told)?;
    tell_ended(holder.drive(rt, hub, job), told)
}
