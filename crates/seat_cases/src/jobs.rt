//! The jobs of a script's lines, over a store, and the replies to them.

use case_words::Transcript;
use json::Scratch;
use lake_script::{Line, Output, creation_of, job_of_task, reply_of};
use log_reading::LogCache;
use script_lines::{Reading, reading_of};
use std::alloc::{AllocError, Global};
use store_core::MemoryStore;
use table_jobs::{Job, JobEnd, run};

/// How many versions a job tries at most.
const TRIES: u64 = 16;

/// The job that a line of a script asks for. `None` where it asks for none that a session can do. Fails where memory
/// runs out.
fn asked_by(alloc: Global, line: &str) -> Result<Option<Job<'static>>, AllocError> {
    let mut scratch = Scratch::new(alloc);
    match reading_of(alloc, line.as_bytes(), &mut scratch, true)? {
        Reading::Asks(Line::Create { id, at, schema }) => {
            let made = creation_of(alloc, id, at, schema)?;
            Ok(Some(Job::Create(made)))
        }
        Reading::Asks(Line::Job(job)) => match job_of_task(alloc, job, TRIES, true)? {
            Some(job) => Ok(Some(job.owned()?)),
            None => Ok(None),
        },
        _ => Ok(None),
    }
}

/// The job that a line of a script asks for; a line that asks for none that a session can do is misspelled.
pub fn job_of(line: &str, told: &mut Transcript) -> Option<Job<'static>> {
    match asked_by(told.alloc, line) {
        Ok(Some(job)) => return Some(job),
        Ok(None) => told.misspelled(),
        Err(_error) => told.lacks_memory(),
    }
    None
}

/// Adds the reply to what a job's session told, as a script has it.
pub fn tell_end(end: JobEnd, told: &mut Transcript) {
    let mut output = Output::new(told.alloc, Vec::new(told.alloc));
    told.note(reply_of(told.alloc, end).give(&mut output));
    told.note(output.flush());
    told.add(&output.writer);
}

/// Adds what a session told that was driven through a seat. The version of the receipt that the seat was given.
pub fn tell_ended(
    ended: Result<(JobEnd, Option<u64>), AllocError>,
    told: &mut Transcript,
) -> Option<u64> {
    match ended {
        Ok((end, receipt)) => {
            tell_end(end, told);
            receipt
        }
        Err(_error) => {
            told.lacks_memory();
            None
        }
    }
}

/// Adds the version of a receipt, where one was given.
pub fn tell_receipt(receipt: Option<u64>, told: &mut Transcript) {
    if let Some(version) = receipt {
        told.tell("receipt", &version);
    }
}

/// Runs the job of a line over a store, and adds its reply.
pub fn run_over(store: &mut MemoryStore, line: &str, told: &mut Transcript) {
    if let Some(job) = job_of(line, told) {
        let mut cache = LogCache::new(told.alloc);
        tell_end(run(told.alloc, store, job, &mut cache), told);
    }
}
