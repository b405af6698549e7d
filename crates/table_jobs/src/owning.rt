//! A job that may be kept, with the rows of its batch.
ghost use Rattle.std.specs.Prelude.{◌≡◌, IfOk, Ok};
ghost use Rattle.json_text.specs.Rows.{rows_data};
ghost use Rattle.sink_core.specs.SinkSessions.{sink_task_view};
ghost use Rattle.table_jobs.specs.Views.{job_view, stream_view};

use crate::job::{Job, StreamJob};
use json_text::{ArrayText, JsonRows};
use sink_core::SinkTask;
use std::alloc::AllocError;

impl Job<'_> {
    /// The same job, which may be kept: the rows of a batch own their text, as those of an array do. Fails where others
    /// are borrowed.
    pub fn owned(self) -> Result<Job<'static>, AllocError>
        ensures { IfOk result (λ job. job_view job ≡ job_view self.entry) }
    {
        match self {
            Job::Create(job) => Ok(Job::Create(job)),
            Job::Load { use_checkpoints } => Ok(Job::Load { use_checkpoints }),
            Job::Checkpoint { use_checkpoints } => Ok(Job::Checkpoint { use_checkpoints }),
            Job::Stream(job) => Ok(Job::Stream(owned_stream(job)?)),
            Job::Read {
                place,
                max,
                use_checkpoints,
            } => Ok(Job::Read {
                place,
                max,
                use_checkpoints,
            }),
        }
    }
}

fn owned_stream(job: StreamJob<'_>) -> Result<StreamJob<'static>, AllocError>
    ensures { IfOk result (λ owned. stream_view owned ≡ stream_view job.entry) }
{
    let StreamJob {
        application,
        task,
        at,
        tries,
        use_checkpoints,
    } = job;
    let task = owned_task(task)?;
    Ok(StreamJob {
        application,
        task,
        at,
        tries,
        use_checkpoints,
    })
}

fn owned_task(task: SinkTask<'_>) -> Result<SinkTask<'static>, AllocError>
    ensures { IfOk result (λ owned. sink_task_view owned ≡ sink_task_view task.entry) }
{
    match task {
        SinkTask::Append { number, rows } => {
            let rows = owned_rows(rows)?;
            Ok(SinkTask::Append { number, rows })
        }
        SinkTask::Close => Ok(SinkTask::Close),
    }
}

/// Rows that own their text, as those of lines that are read to be kept. Of others it fails.
fn owned_rows(rows: JsonRows<'_>) -> Result<JsonRows<'static>, AllocError>
    ensures same { IfOk result (λ owned. rows_data owned ≡ rows_data rows.entry) }
    ensures array { (array : ArrayText) → rows.entry ≡ JsonRows.Array array → result ≡ Ok (JsonRows.Array array) }
{
    match rows {
        JsonRows::Array(array) => Ok(JsonRows::Array(array)),
        JsonRows::Values(_) => Err(AllocError),
        JsonRows::Texts(_) => Err(AllocError),
    }
}
