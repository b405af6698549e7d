//! What lines ask for, as jobs.
ghost use Rattle.std.specs.Prelude.{◌≡◌, ◌<◌, ◌≤◌, ◌^◌, [], IfOk, Ok, Some, false, option_map, true};
ghost use Rattle.std.specs.Str.{IsUtf8};
ghost use Rattle.script_lines.specs.Lines.{IsTimelyTask, task, task_view};
ghost use Rattle.sink_core.specs.SinkSessions as sinks;
ghost use Rattle.log_offsets.specs.Offsets.{offset_of};
ghost use Rattle.table_jobs.specs.Jobs.{reads, streams};
ghost use Rattle.table_jobs.specs.Views.{job_view, new_load};
ghost use Rattle.lake_script.specs.LineJobs.{IsOfText, job_of_creation, job_of_task};
ghost use Rattle.lake_script.specs.ReplyView.{is_short_reply, reply_text, says_lost};
ghost use Rattle.lake_script.specs.Runs.{IsWantOfMemory};

use crate::reply::LineReply;
use script_lines as lines;
use sink_core::{SinkFault, SinkTask};
use snapshot_core::SnapshotFault;
use source_core::{TailFault, read_offset};
use std::alloc::{AllocError, Global};
use table_jobs::{Creation, Job, StreamJob};

/// The table that a line creates. Fails where memory runs out.
pub fn creation_of(alloc: Global, id: &str, at: u64, schema: &str) -> Result<Creation, AllocError>
    requires { at < 2 ^ 63 }
    ensures { IfOk result (λ made. job_view (Job.Create made) ≡ job_of_creation id.now at schema.now) }
{
    let id = String::from_str(alloc, id)?;
    let schema = String::from_str(alloc, schema)?;
    Ok(Creation { id, at, schema })
}

/// The job of a task; none, where the offset of a read can't be read. Fails where memory runs out.
pub fn job_of_task<'r>(
    alloc: Global,
    job: lines::Job<'r>,
    tries: u64,
    use_checkpoints: bool,
) -> Result<Option<Job<'r>>, AllocError>
    requires tries { 1 ≤ tries }
    requires timely { IsTimelyTask (task_view job) }
    ensures job { IfOk result (λ found. option_map job_view found ≡ job_of_task use_checkpoints tries (task_view job.entry)) }
    ensures text { IsOfText (task_view job.entry) }
{
    match job {
        lines::Job::Append {
            application,
            number,
            at,
            rows,
        } => {
            let task = SinkTask::Append { number, rows };
            stream_job(alloc, application, task, at, tries, use_checkpoints)
        }
        lines::Job::Close { application, at } => {
            let task = SinkTask::Close;
            stream_job(alloc, application, task, at, tries, use_checkpoints)
        }
        lines::Job::Checkpoint => Ok(Some(Job::Checkpoint { use_checkpoints })),
        lines::Job::Tail { max, offset } => read_job(alloc, offset, max, use_checkpoints),
    }
}

fn stream_job<'r>(
    alloc: Global,
    application: &str,
    task: SinkTask<'r>,
    at: u64,
    tries: u64,
    use_checkpoints: bool,
) -> Result<Option<Job<'r>>, AllocError>
    requires tries { 1 ≤ tries }
    requires at { at < 2 ^ 63 }
    ensures job { IfOk result (λ found. option_map job_view found ≡ Some (streams (record { application = application.now; task = sinks.sink_task_view task.entry; at = at; tries = tries; load = new_load use_checkpoints; loads = true }))) }
    ensures text { IsUtf8 application.now }
{
    let application = String::from_str(alloc, application)?;
    Ok(Some(Job::Stream(StreamJob {
        application,
        task,
        at,
        tries,
        use_checkpoints,
    })))
}

/// The job that reads from an offset on; none, where that can't be read.
fn read_job<'r>(
    alloc: Global,
    offset: &str,
    max: u64,
    use_checkpoints: bool,
) -> Result<Option<Job<'r>>, AllocError>
    ensures { IfOk result (λ found. option_map job_view found ≡ option_map (λ place. reads (record { place = place; max = max; use_checkpoints = use_checkpoints; known = [] })) (offset_of offset.now)) }
{
    let Some(place) = read_offset(alloc, offset)? else {
        return Ok(None);
    };
    Ok(Some(Job::Read {
        place,
        max,
        use_checkpoints,
    }))
}

/// What is told of a job for which there is no memory.
pub fn no_room_for(job: &lines::Job<'_>) -> LineReply
    ensures told { IsWantOfMemory (task (task_view job.now)) (reply_text result) }
    ensures short { is_short_reply result ≡ true }
    ensures lost { says_lost result ≡ false }
{
    match job {
        lines::Job::Append { .. } | lines::Job::Close { .. } => {
            LineReply::SinkRefused(SinkFault::Memory)
        }
        lines::Job::Checkpoint => LineReply::NoSnapshot(SnapshotFault::Memory),
        lines::Job::Tail { .. } => LineReply::NotTailed(TailFault::Memory),
    }
}
