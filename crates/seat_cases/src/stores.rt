//! The lines of a case while no hub is open: what is put into its store, and the hub that is opened over it.

ghost use Rattle.std.specs.Prelude.{◌≡◌, ◌<◌, ◌≤◌};

use crate::beside::tell_beside;
use crate::jobs::run_over;
use crate::lines::Lines;
use crate::seats::{Room, tell_seats};
use case_words::{Transcript, head};
use log_hub::{Naming, Opened};
use std::marker::Brand;
use std::sync::Wait;
use std::thread::Threads;
use store_core::{MemoryStore, Put, Store};

/// Runs the cases of an input up to its end, or to a line that is bad, and adds what is told of them.
pub fn tell_cases<R: Threads + Wait + Sync>(rt: &R, lines: &mut Lines<'_>, told: &mut Transcript) {
    let mut store = MemoryStore::new(told.alloc);
    for _ in rt.forever() {
        if told.is_bad() {
            return;
        }
        match lines.take() {
            Some(line) => store = tell_line(rt, store, line, lines, told),
            None => return,
        }
    }
}

/// Does what a line says, and those behind it at the hub that it opens. The store that is left.
fn tell_line<R: Threads + Wait + Sync>(
    rt: &R,
    store: MemoryStore,
    line: &str,
    lines: &mut Lines<'_>,
    told: &mut Transcript,
) -> MemoryStore {
    let mut store = store;
    let (word, rest) = head(line);
    match word {
        "case" => {
            told.say(line);
            return MemoryStore::new(told.alloc);
        }
        "put" => put_object(&mut store, rest, told),
        "script" => run_over(&mut store, rest, told),
        "beside" => tell_beside(rt, &mut store, rest, told),
        "open" => return open(rt, store, rest, lines, told),
        "" => {}
        _ => told.misspelled(),
    }
    store
}

/// The bytes that digits spell in hexadecimal.
pub fn bytes_of(digits: &str, told: &mut Transcript) -> Vec<u8> {
    match hex::decode(told.alloc, digits) {
        Ok(bytes) => return bytes,
        Err(hex::FromHexError::OutOfMemory) => told.lacks_memory(),
        Err(_error) => told.misspelled(),
    }
    Vec::new(told.alloc)
}

/// Adds how a put went.
pub fn tell_put(put: Put, told: &mut Transcript) {
    match put {
        Put::Created => told.say("created"),
        Put::Exists => told.say("exists"),
    }
}

/// Puts an object: `NAME HEX`.
fn put_object(store: &mut MemoryStore, words: &str, told: &mut Transcript) {
    let (name, digits) = head(words);
    let bytes = bytes_of(digits, told);
    if told.is_bad() {
        return;
    }
    match store.put_absent(name, bytes) {
        Ok(put) => tell_put(put, told),
        Err(_fault) => told.lacks_memory(),
    }
}

/// How many seats a word asks for: 1 to 64.
fn seats_of(word: &str, told: &mut Transcript) -> u32
    ensures { (0 < result) × (result ≤ 64) }
{
    match word.parse::<u32>() {
        Ok(count) if 0 < count && count <= 64 => count,
        _ => {
            told.misspelled();
            1
        }
    }
}

/// Opens a hub, and does what the lines behind say there. The store that is left.
fn open<R: Threads + Wait + Sync>(
    rt: &R,
    store: MemoryStore,
    count: &str,
    lines: &mut Lines<'_>,
    told: &mut Transcript,
) -> MemoryStore {
    let count = seats_of(count, told);
    if told.is_bad() {
        return store;
    }
    match Opened::open(rt, told.alloc, store) {
        Ok(opened) => tell_opened::<Brand, R>(rt, opened, count, lines, told),
        Err((fault, store)) => {
            told.show(&fault);
            store
        }
    }
}

/// Gives a hub its seats, and does what the lines say there. The store that is left.
fn tell_opened<J: Naming + Send + Sync, R: Threads + Wait + Sync>(
    rt: &R,
    opened: Opened,
    count: u32,
    lines: &mut Lines<'_>,
    told: &mut Transcript,
) -> MemoryStore
    requires some { 0 < count }
    requires table { opened.table ≡ J.table }
    requires badge { opened.badge ≡ J.badge }
{
    match opened.seats::<J>(count) {
        Ok((hub, seats)) => {
            if let Some(first) = seats.as_slice().first() {
                told.tell("opened", &first.version());
            }
            let room = Room::new(hub, seats, told);
            tell_seats(rt, room, lines, told)
        }
        Err((_memory, _opened)) => {
            told.lacks_memory();
            MemoryStore::new(told.alloc)
        }
    }
}
