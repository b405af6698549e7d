//! What a reader does at a seat: reads, one after the other, by what it learns of the log.

ghost use Rattle.lake_workers.specs.Reading.{IsLogKnownAt};

use crate::jobs::{job_of, tell_end};
use crate::seats::{Room, tell_at};
use case_seats::Holder;
use case_words::{Transcript, head};
use lake_workers::what_is_known_of_a_log_stays;
use log_hub::{Hub, Naming};
use log_reading::{Log, LogCache};
use source_core::{Offset, ReadEnd};
use std::sync::Wait;
use table_jobs::{Job, JobEnd};

/// Where a table's rows begin.
const BEGINNING: Offset = Offset {
    version: 0,
    file: 0,
    row: 0,
};

/// Runs the items of a reader at a seat: `ITEM | ITEM ..`.
pub fn tell_follows<J: Naming, R: Wait>(
    rt: &R,
    room: &mut Room<J>,
    place: usize,
    items: &str,
    told: &mut Transcript,
) {
    let Some(mut holder) = room.take(place, told) else {
        return;
    };
    what_is_known_of_a_log_stays();
    let mut cache = LogCache::new(told.alloc);
    let mut next = BEGINNING;
    for item in items.split(" | ") {
        let (word, line) = head(item);
        if word == "tail" {
            if let Some(Job::Read { place, max, .. }) = job_of(item, told) {
                tell_rows(rt, &room.hub, &mut holder, &mut cache, place, max, told);
            }
        } else if line.is_empty() {
            let max = told.number(word);
            next = tell_rows(rt, &room.hub, &mut holder, &mut cache, next, max, told);
        } else {
            let other = told.number(word);
            tell_at(rt, room, other as usize, line, told);
        }
    }
    room.put_back(place, holder);
}

/// Reads rows from an offset on, and adds what is told. Where the next read begins.
fn tell_rows<J: Naming, R: Wait>(
    rt: &R,
    hub: &Hub<J>,
    holder: &mut Holder<J>,
    cache: &mut LogCache,
    place: Offset,
    max: u64,
    told: &mut Transcript,
) -> Offset
    requires { IsLogKnownAt holder.old.seat cache.old.log cache.old.file }
    ensures { IsLogKnownAt holder.new.seat cache.new.log cache.new.file }
{
    let answer = holder.read_rows(rt, hub, cache, place, max);
    let next = match &answer {
        Ok(rows) => rows.next,
        Err(_fault) => place,
    };
    let end = ReadEnd {
        known: Log::new(told.alloc),
        file: None,
        answer,
    };
    tell_end(JobEnd::Read(end), told);
    next
}
