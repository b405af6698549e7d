//! A program that runs a log that seats share, line by line of its standard input, and prints what is told.
//!
//! Words stand with one space between each two. Blank lines and those that begin with `#` are passed over. A line that
//! is none of these is told as bad, by its number, and the program ends there with status 2:
//!
//! - `case NAME` begins a case, with a store in which nothing stands and no hub, and is told as it stands.
//!
//! While no hub is open (`stores.rt`):
//!
//! - `put NAME HEX`: puts an object, unless its name stands: `created` or `exists`;
//! - `script LINE`: runs the job of a script's line over the store, in one thread, and tells its reply;
//! - `beside LINE | OTHER ..`: for each K from 0 on does a line's job twice over copies of the store: through a seat,
//!   while another one does the jobs of the others in front of the session's call number K, and in one thread, with the
//!   same in front of that call. `K` and the reply, where replies, calls and what is left are the same; else `K differs
//!   in` which of them, and both. It ends where the session doesn't come to call K, told as `K alone` (`beside.rt`);
//! - `open N`: opens a hub with so many seats, 1 to 64, over the store: `opened` and how many commits stand, or why the
//!   store is refused; it stays then.
//!
//! At an open hub, where K is a seat's number from 0 on (`seats.rt`):
//!
//! - `K list`: the names that stand, one a line behind `names` and their count;
//! - `K get NAME`: `bytes` and how many stand under a name, or `none`;
//! - `K read`: the commit right behind the log that the seat has seen, `commit` and its count of bytes, `at` its
//!   version, or `none`;
//! - `K reads`: all of these up to the last one, and then as `K log`;
//! - `K log`: `log` and how many commits the seat has seen;
//! - `K file NAME HEX`: puts an object whose name is neither a commit's nor a checkpoint's: `created` or `exists`;
//! - `K LINE`: drives the session of the job of a script's line (`create`, `append`, `close`, `checkpoint` or `tail`)
//!   through the seat, and tells its reply; then `receipt` and the version, where it created a commit;
//! - `K amid M C LINE | LINE`: the same for the first line, while the seat M does what the second one says in front of
//!   the call number C of that session, from 0 on; what M is told comes first;
//! - `K works ITEM | ITEM ..`: jobs of streams (`append`, `close`) one after the other, by what a worker at the seat
//!   learns of the log, each told as by its own line; `prepared LINE` is an append whose file was prepared before, and
//!   `M LINE` does what a line says at another seat in between (`workers.rt`);
//! - `K follows ITEM | ITEM ..`: reads by what a worker at the seat learns of the log: `N` rows from where the last one
//!   ended, at first from the beginning, or the line of a `tail`; `M LINE` as for `works` (`readers.rt`);
//! - `K appends N APP`: so many appends without rows by such a worker, numbered from 0 on; what the last one told;
//! - `threads K LINE | K LINE`: the same as `K LINE` by two threads at once, each through its own seat. Their replies
//!   are told in the order of their bytes, and then their receipts in that of their versions (`threads.rt`);
//! - `calls N THREADS`: about so many calls, shared by so many threads, each at the seat of its number (`rounds.rt`);
//! - `finish`: the hub ends, with all seats, from the last to the first, and all receipts: `log` and how many commits
//!   stand, and for each seat `seat K calls` and how many calls the history has of it. The store stays (`endings.rt`);
//! - `finish log`: the same, but for the counts of calls;
//! - `finish -1`: with one seat fewer, the last one: why it doesn't end. The hub and its seats stay.
#![tactic(auto)]

mod beside;
mod endings;
mod jobs;
mod lines;
mod readers;
mod rounds;
mod seats;
mod stores;
mod threads;
mod workers;

use case_words::Transcript;
use lines::Lines;
use std::io;
use std::io::Write;
use std::process::ExitCode;
use stores::tell_cases;

/// Tells the cases on standard input.
fn main(rt: HostRuntime) -> io::Result<ExitCode> {
    let text = io::read_to_string(rt.alloc(), rt.stdin())?;
    let mut told = Transcript::new(rt.alloc());
    let mut lines = Lines::new(&text);
    tell_cases(&rt, &mut lines, &mut told);
    let is_bad = told.is_bad();
    told.end_line(lines.number());
    rt.stdout().write_all(told.bytes())?;
    if told.is_short() {
        eprintln!(rt; "out of memory")?;
        return Ok(ExitCode::FAILURE);
    }
    Ok(if is_bad {
        ExitCode::from(2)
    } else {
        ExitCode::SUCCESS
    })
}
