//! The end of a hub, and what its history has.

use crate::seats::Room;
use case_seats::{gathered, parted, placed};
use case_words::Transcript;
use log_book::{CallRecord, FinalLog};
use log_hub::{Naming, finish};
use std::sync::Wait;
use store_core::{MemoryStore, Store, commit_version};

/// Ends a hub: with all seats, or for `-1` with one fewer. The store, or the hub and its seats, where it doesn't end.
pub fn tell_finish<J: Naming, R: Wait>(
    rt: &R,
    room: Room<J>,
    words: &str,
    told: &mut Transcript,
) -> Result<MemoryStore, Room<J>> {
    match words {
        "" | "log" => Ok(tell_end(rt, room, words.is_empty(), told)),
        "-1" => tell_refusal(rt, room, told),
        _ => {
            told.misspelled();
            Err(room)
        }
    }
}

/// Tries to end a hub without its last seat, and adds why it doesn't. No receipt is shown. The hub and its seats, or
/// the store that is left where it does end.
fn tell_refusal<J: Naming, R: Wait>(
    rt: &R,
    room: Room<J>,
    told: &mut Transcript,
) -> Result<MemoryStore, Room<J>> {
    let Room { hub, places } = room;
    let mut places = places;
    let last = places.pop().unwrap_or(None);
    let Ok((seats, kept)) = parted(told.alloc, places) else {
        told.lacks_memory();
        return Ok(MemoryStore::new(told.alloc));
    };
    match finish(rt, hub, seats, &[]) {
        Ok(log) => Ok(tell_log(log, 0, told)),
        Err((missing, hub, seats)) => {
            told.show(&missing);
            let Ok(places) = placed(told.alloc, seats, kept) else {
                told.lacks_memory();
                return Ok(MemoryStore::new(told.alloc));
            };
            let mut places = places;
            told.note(places.push(last));
            Err(Room { hub, places })
        }
    }
}

/// Ends a hub with all seats and receipts, and adds what its log and its history have. The store that is left.
pub fn tell_end<J: Naming, R: Wait>(
    rt: &R,
    room: Room<J>,
    tells_calls: bool,
    told: &mut Transcript,
) -> MemoryStore {
    let Room { hub, places } = room;
    let count = places.len() as u64;
    let Ok((seats, receipts)) = gathered(told.alloc, places) else {
        told.lacks_memory();
        return MemoryStore::new(told.alloc);
    };
    match finish(rt, hub, seats, &receipts) {
        Ok(log) => tell_log(log, if tells_calls { count } else { 0 }, told),
        Err((missing, _hub, _seats)) => {
            told.show(&missing);
            MemoryStore::new(told.alloc)
        }
    }
}

/// Adds how many commits a log has, and how many calls the first seats made. Its store.
fn tell_log(log: FinalLog, seats: u64, told: &mut Transcript) -> MemoryStore {
    let FinalLog {
        store,
        history,
        opening: _,
    } = log;
    let mut store = store;
    match store.list() {
        Ok(names) => {
            let commits = names
                .as_slice()
                .iter()
                .filter(|name| commit_version(name.as_str()).is_some())
                .count();
            told.tell("log", &commits);
        }
        Err(_fault) => told.lacks_memory(),
    }
    for seat in 0..seats {
        told.with("seat ", &seat);
        told.tell(" calls", &calls_of(&history, seat));
    }
    store
}

/// How many calls of a history are a seat's.
fn calls_of(history: &[CallRecord], seat: u64) -> usize {
    history.iter().filter(|made| made.seat == seat).count()
}
