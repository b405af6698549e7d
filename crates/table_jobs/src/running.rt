//! A job over one store, whose session is driven to its end.
ghost use Rattle.session_core.specs.Stores.{MakesCall, Talked};
ghost use Rattle.log_reading.specs.LogCache.{IsCacheOf};
ghost use Rattle.table_jobs.specs.Done.{IsJobDone};
ghost use Rattle.table_jobs.specs.Over.{IsDoneOver, IsJobDriven, KnowsSo};
ghost use Rattle.table_jobs.specs.Sessions.{end_view};
ghost use Rattle.table_jobs.specs.Views.{KeepsRest, job_view, with_known};

use crate::job::Job;
use crate::job_session::{JobEnd, JobSession};
use log_reading::LogCache;
use session_core::drive;
use std::alloc::Global;
use store_core::Store;

/// Runs a job over a store: drives its session, and tells what that tells; why each kind of job is refused, and which
/// reason comes first, stands in `docs/REFUSALS.md`. Of rows that are texts one that is no JSON counts as `null`.
///
/// What is known of the log needn't be read again: it is what earlier jobs over this store left in the cache, or
/// [`LogCache::new`]. A job takes what it needs out of the cache. What it knew by its end stands in what it tells, but
/// for a load that is refused: what was loaded, or for a read what was read, the file that was held, and with its rows
/// the schema; put back into the cache it spares the next job those commits.
///
/// Where the store loses no call a refusal leaves it as it was, but for the data file of an append whose version would
/// be above 999,999,999,999, or where a growth was refused.
///
/// Beside the store's own time: to read the log takes time linear in the names of the store and in the bytes that are
/// read, those of the checkpoint and the commits behind it, or those of the commits that weren't known, and for each
/// action the logarithm of how many applications, domains and files the log tells of. An append takes time linear in
/// its rows besides, but for looking names up in each, and reads no file of another batch; a read time linear in the
/// bytes of the files from its place up to the last row handed out, in their runs of levels times the leaves, and in the
/// rows handed out times the leaves; a checkpoint time linear in what the log leaves.
pub fn run<S: Store>(alloc: Global, store: &mut S, job: Job<'_>, cache: &mut LogCache) -> JobEnd
    requires cache { IsCacheOf (S.objects store.old) cache.old }
    // What it doesn't need stays in the cache; what is there is so of the store, and so is what is handed back.
    ensures rest { KeepsRest (job_view job.entry) cache.old cache.new }
    ensures cache { IsCacheOf (S.objects store.new) cache.new }
    ensures known { KnowsSo (S.objects store.new) (end_view result) }
    // Over any store, one that loses calls too: what it did is told by a talk, in which it made these calls and no
    // others; and what it told and left is what its kind of job may.
    ensures driven { IsJobDriven (λ talk. Talked (MakesCall S.makes) store.old talk store.new) (S.is_reliable store.old) (with_known cache.old (job_view job.entry)) result
        (S.objects store.old, S.in_flight store.old) (S.objects store.new, S.in_flight store.new) (S.fault_count store.old) (S.fault_count store.new) }
    ensures over { IsDoneOver (S.is_reliable store.old) (with_known cache.old (job_view job.entry)) (end_view result)
        (S.objects store.old, S.in_flight store.old) (S.objects store.new, S.in_flight store.new) (S.fault_count store.old) (S.fault_count store.new) }
    // Over a store that loses no call it tells and leaves just what the objects say.
    ensures done { S.is_reliable store.old → IsJobDone (with_known cache.old (job_view job.entry)) (S.objects store.old) (S.objects store.new) (end_view result) }
    ensures reliable { S.is_reliable store.old → S.is_reliable store.new }
{
    let mut session = JobSession::behind(alloc, job, cache);
    drive(alloc, store, &mut session)
}
