//! Calls that are made many times over, to see how long they take.

use crate::seats::Room;
use crate::threads::{Work, add_task, tell_at_once};
use case_seats::Holder;
use case_words::Transcript;
use log_hub::{Hub, Naming};
use std::alloc::{AllocError, Global};
use std::sync::Wait;
use std::thread::Threads;

/// How many rounds of four calls a thread makes, and its number.
#[derive(Clone, Copy)]
pub struct Rounds {
    pub thread: u64,
    pub count: u64,
}

/// How many bytes are put under each name.
const BYTES: usize = 100;

/// The name of commit 0.
const FIRST_COMMIT: &str = "_delta_log/00000000000000000000.json";

/// Makes the calls of a thread: in each round a new object is put and got, commit 0 is asked for, and a name that is
/// absent; at first and at last all names are listed.
pub fn make_rounds<J: Naming, R: Wait>(
    rt: &R,
    alloc: Global,
    hub: &Hub<J>,
    holder: &mut Holder<J>,
    rounds: Rounds,
) -> Result<(), AllocError> {
    let _names = holder.list(rt, hub)?;
    for round in 0..rounds.count {
        make_round(rt, alloc, hub, holder, rounds.thread, round)?;
    }
    let _names = holder.list(rt, hub)?;
    Ok(())
}

/// Makes the four calls of a round.
fn make_round<J: Naming, R: Wait>(
    rt: &R,
    alloc: Global,
    hub: &Hub<J>,
    holder: &mut Holder<J>,
    thread: u64,
    round: u64,
) -> Result<(), AllocError> {
    let Ok(name) = format!(in alloc; "t{thread}-{round}") else {
        return Err(AllocError);
    };
    let bytes = vec![in alloc; 0u8; BYTES]?;
    let _put = holder.put_file(rt, hub, &name, bytes)?;
    let _found = holder.get(rt, hub, &name)?;
    let _commit = holder.get(rt, hub, FIRST_COMMIT)?;
    let _absent = holder.get(rt, hub, "absent")?;
    Ok(())
}

/// Makes about so many calls, shared by so many threads, each at the seat of its number: `N THREADS`.
pub fn tell_rounds<J: Naming + Send + Sync, R: Threads + Wait + Sync>(
    rt: &R,
    room: &mut Room<J>,
    words: &str,
    told: &mut Transcript,
) {
    let (calls, threads) = told.halves(words);
    let calls = told.number(calls);
    let threads = told.count(threads);
    let mut tasks = Vec::new(told.alloc);
    for thread in 0..threads {
        let count = calls / threads / 4;
        let work = Work::Calls(Rounds { thread, count });
        if !told.is_bad() {
            add_task(&mut tasks, room, thread as usize, work, told);
        }
    }
    if !told.is_bad() {
        tell_at_once(rt, room, tasks, told);
        told.tell("calls", &calls);
    }
}
