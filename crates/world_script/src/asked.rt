//! What lines ask for, as jobs that an actor may keep.
ghost use Rattle.std.specs.Prelude.{◌≡◌, ◌<◌, ◌≤◌, ◌^◌, IfOk, option_map};
ghost use Rattle.script_lines.specs.Lines.{IsTimelyTask, task_view};
ghost use Rattle.table_jobs.specs.Views.{job_view};
ghost use Rattle.lake_script.specs.LineJobs.{job_of_creation, job_of_task};

use script_lines as lines;
use std::alloc::{AllocError, Global};
use table_jobs::Job;

/// The job that creates a table, which may be kept. Fails where memory runs out.
pub(crate) fn kept_creation(
    alloc: Global,
    id: &str,
    at: u64,
    schema: &str,
) -> Result<Job<'static>, AllocError>
    requires { at < 2 ^ 63 }
    ensures { IfOk result (λ job. job_view job ≡ job_of_creation id.now at schema.now) }
{
    let made = lake_script::creation_of(alloc, id, at, schema)?;
    Ok(Job::Create(made))
}

/// The job of a task, which may be kept; none, where the offset of a read can't be read. Fails where memory runs out, or
/// the rows are borrowed.
pub(crate) fn kept_job(
    alloc: Global,
    job: lines::Job<'_>,
    tries: u64,
    use_checkpoints: bool,
) -> Result<Option<Job<'static>>, AllocError>
    requires tries { 1 ≤ tries }
    requires timely { IsTimelyTask (task_view job) }
    ensures { IfOk result (λ found. option_map job_view found ≡ job_of_task use_checkpoints tries (task_view job.entry)) }
{
    match lake_script::job_of_task(alloc, job, tries, use_checkpoints)? {
        Some(job) => Ok(Some(job.owned()?)),
        None => Ok(None),
    }
}
