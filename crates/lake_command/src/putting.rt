//! The job of a line, and what is told of one for which there is no memory.
ghost use Rattle.std.specs.Prelude.{◌≡◌, ◌≤◌, IfOk, option_map};
ghost use Rattle.table_jobs.specs.Views.{job_view};
ghost use Rattle.script_lines.specs.Lines.{IsTimely};
ghost use Rattle.lake_script.specs.LineJobs.{job_of_line};
ghost use Rattle.lake_script.specs.ReplyView.{reply_text};
ghost use Rattle.lake_script.specs.Runs.{IsWantOfMemory};
ghost use Rattle.lake_command.specs.Folders.{IsTextLine, line_view};

use crate::job_line::JobLine;
use commit_core::CreateFault;
use lake_script::{LineReply, creation_of, job_of_task};
use snapshot_core::SnapshotFault;
use std::alloc::{AllocError, Global};
use store_core::StoreFault;
use table_jobs::Job;

/// The job of a line; none where it isn't one. Fails where memory runs out.
pub(crate) fn job_of_line<'r>(
    alloc: Global,
    line: JobLine<'r>,
    tries: u64,
    use_checkpoints: bool,
) -> Result<Option<Job<'r>>, AllocError>
    requires tries { 1 ≤ tries }
    requires timely { IsTimely (line_view line) }
    ensures job { IfOk result (λ found. option_map job_view found ≡ job_of_line use_checkpoints tries (line_view line.entry)) }
    ensures text { IsTextLine (line_view line.entry) }
{
    match line {
        JobLine::Create { id, at, schema } => {
            let made = creation_of(alloc, id, at, schema)?;
            Ok(Some(Job::Create(made)))
        }
        JobLine::Job(job) => job_of_task(alloc, job, tries, use_checkpoints),
        JobLine::Snapshot | JobLine::History => Ok(None),
    }
}

/// What is told of a line for which there is no memory.
pub(crate) fn no_room_for(line: &JobLine<'_>) -> LineReply
    ensures { IsWantOfMemory (line_view line.now) (reply_text result) }
{
    match line {
        JobLine::Create { .. } => LineReply::NotCreated(CreateFault::Memory),
        JobLine::Job(job) => lake_script::no_room_for(job),
        JobLine::Snapshot => LineReply::NoSnapshot(SnapshotFault::Memory),
        JobLine::History => LineReply::NoHistory(StoreFault::Memory),
    }
}
