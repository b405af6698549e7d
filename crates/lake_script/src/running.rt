//! The lines that are jobs, run over a store.
ghost use Rattle.std.specs.Prelude.{◌<◌, ◌≤◌, ◌^◌, ℕ, Bool};
ghost use Rattle.log_reading.specs.LogCache.{IsCacheOf};
ghost use Rattle.table_jobs.specs.Sessions.{end_view};
ghost use Rattle.table_jobs.specs.Views.{job_view};
ghost use Rattle.script_lines.specs.Lines.{IsTimelyTask, create, task, task_view};
ghost use Rattle.lake_script.specs.CarriedOut.{IsCarriedOut};
ghost use Rattle.lake_script.specs.JobRuns.{LearnsFrom, RanOverStore};
ghost use Rattle.lake_script.specs.ReplyView.{is_short_reply, reply_text, says_lost};

use crate::ending::reply_learning;
use crate::jobs::{creation_of, job_of_task, no_room_for};
use crate::reply::LineReply;
use commit_core::CreateFault;
use log_reading::LogCache;
use script_lines as lines;
use source_core::TailFault;
use std::alloc::Global;
use store_core::Store;
use table_jobs::{Job, run};

/// Runs a job over a store, and finds its reply.
fn run_job<S: Store>(alloc: Global, job: Job<'_>, store: &mut S, cache: &mut LogCache) -> LineReply
    requires cache { IsCacheOf (S.objects store.old) cache.old }
    ensures cache { IsCacheOf (S.objects store.new) cache.new }
    ensures ran { (ran : RanOverStore (S.is_reliable store.old) cache.old (job_view job.entry) (reply_text result) (is_short_reply result) (says_lost result)
        (S.objects store.old, S.in_flight store.old) (S.objects store.new, S.in_flight store.new) (S.fault_count store.old) (S.fault_count store.new))
        × LearnsFrom (job_view job.entry) (end_view ran.end) (is_short_reply result) cache.old cache.new }
    ensures reliable { S.is_reliable store.old → S.is_reliable store.new }
{
    let end = run(alloc, store, job, cache);
    reply_learning(alloc, end, cache)
}

/// The reply to a line that creates a table.
pub(crate) fn create_table<S: Store>(
    alloc: Global,
    store: &mut S,
    id: &str,
    at: u64,
    schema: &str,
    cache: &mut LogCache,
) -> LineReply
    requires at { at < 2 ^ 63 }
    requires cache { IsCacheOf (S.objects store.old) cache.old }
    ensures cache { IsCacheOf (S.objects store.new) cache.new }
    ensures carried { (use_checkpoints : Bool) (tries : ℕ) → IsCarriedOut (S.is_reliable store.old) use_checkpoints tries cache.old.loaded (create id.now at schema.now) (reply_text result) (is_short_reply result) (says_lost result)
        (S.objects store.old, S.in_flight store.old) (S.objects store.new, S.in_flight store.new) (S.fault_count store.old) (S.fault_count store.new) }
    ensures reliable { S.is_reliable store.old → S.is_reliable store.new }
{
    match creation_of(alloc, id, at, schema) {
        Ok(made) => run_job(alloc, Job::Create(made), store, cache),
        Err(_error) => LineReply::NotCreated(CreateFault::Memory),
    }
}

/// The reply to a line that is a task, which is done.
pub(crate) fn run_task<S: Store>(
    alloc: Global,
    job: lines::Job<'_>,
    store: &mut S,
    tries: u64,
    use_checkpoints: bool,
    cache: &mut LogCache,
) -> LineReply
    requires tries { 1 ≤ tries }
    requires timely { IsTimelyTask (task_view job) }
    requires cache { IsCacheOf (S.objects store.old) cache.old }
    ensures cache { IsCacheOf (S.objects store.new) cache.new }
    ensures carried { IsCarriedOut (S.is_reliable store.old) use_checkpoints tries cache.old.loaded (task (task_view job.entry)) (reply_text result) (is_short_reply result) (says_lost result)
        (S.objects store.old, S.in_flight store.old) (S.objects store.new, S.in_flight store.new) (S.fault_count store.old) (S.fault_count store.new) }
    ensures reliable { S.is_reliable store.old → S.is_reliable store.new }
{
    let no_room = no_room_for(&job);
    match job_of_task(alloc, job, tries, use_checkpoints) {
        Ok(Some(job)) => run_job(alloc, job, store, cache),
        Ok(None) => LineReply::NotTailed(TailFault::BadOffsetText),
        Err(_error) => no_room,
    }
}
