//! The session of a job of whatever kind, and what it tells.

ghost use Rattle.std.specs.Prelude.{◌≡◌};

use commit_core::{CreateFault, CreateSession};
use session_core::{Reply, Session, Step};
use sink_core::{SinkEnd, SinkFault, SinkSession};
use snapshot_core::{CheckpointEnd, CheckpointSession, SnapshotFault};
use source_core::{ReadEnd, SourceSession, TailFault};
use table_log::{LoadSession, Loaded, LogFault};

/// The session of a job.
pub enum JobSession<'r> {
    /// A table is created.
    Create(CreateSession),
    /// A log is loaded.
    Load(LoadSession),
    /// The checkpoint of a log's newest version is put.
    Checkpoint(CheckpointSession),
    /// A batch is appended, or a stream is closed.
    Stream(SinkSession<'r>),
    /// Rows are read.
    Read(SourceSession),
}

/// What a session tells when it ends.
#[derive(Drop)]
pub enum JobEnd {
    Created(Result<(), CreateFault>),
    Loaded(Result<Loaded, LogFault>),
    Checkpointed(CheckpointEnd),
    Streamed(SinkEnd),
    Read(ReadEnd),
}

impl JobEnd {
    ghost use Rattle.table_jobs.specs.Sessions.{end_view};
    ghost use Rattle.table_jobs.specs.Wants.{outcome_wants};

    /// Whether it tells that a growth was refused, or that an object would have passed 64 MiB.
    pub fn is_short(&self) -> bool
        ensures { result ≡ outcome_wants (end_view self.now) }
    {
        match self {
            JobEnd::Created(answer) => {
                matches!(answer, Err(CreateFault::Memory | CreateFault::TooLarge))
            }
            JobEnd::Loaded(answer) => matches!(answer, Err(LogFault::Memory)),
            JobEnd::Checkpointed(end) => {
                matches!(
                    end.answer,
                    Err(SnapshotFault::Memory | SnapshotFault::TooLarge)
                )
            }
            JobEnd::Streamed(end) => {
                matches!(end.answer, Err(SinkFault::Memory | SinkFault::FileTooLarge))
            }
            JobEnd::Read(end) => matches!(end.answer, Err(TailFault::Memory)),
        }
    }
}

// By hand, so that a drop is one call to prove and not all that it holds (docs/GATE.md).
impl<'r> Drop for JobSession<'r> {
    fn drop(self) {
        match self {
            JobSession::Create(_) => {}
            JobSession::Load(_) => {}
            JobSession::Checkpoint(_) => {}
            JobSession::Stream(_) => {}
            JobSession::Read(_) => {}
        }
    }
}

impl<'r> Session for JobSession<'r> {
    ghost use Rattle.table_jobs.specs.Jobs.{Asks, Ends, Job, is_lost_outcome};
    ghost use Rattle.table_jobs.specs.Sessions.{SessionFits, awaited, is_ended, job_of, session_calls_left, end_view};

    type Outcome = JobEnd;

    ghost Job = { Job };

    ghost job = { job_of };

    ghost awaits = { awaited };

    ghost fits = { SessionFits };

    ghost left = { session_calls_left };

    ghost done = { is_ended };

    ghost asks = { Asks };

    ghost ends = { λ job before talk outcome. Ends job before talk (end_view outcome) };

    ghost lost = { λ outcome. is_lost_outcome (end_view outcome) };

    fn is_done(&self) -> bool {
        match self {
            JobSession::Create(session) => session.is_done(),
            JobSession::Load(session) => session.is_done(),
            JobSession::Checkpoint(session) => session.is_done(),
            JobSession::Stream(session) => session.is_done(),
            JobSession::Read(session) => session.is_done(),
        }
    }

    fn next(&mut self, reply: Option<Reply>) -> Step<JobEnd> {
        match self {
            JobSession::Create(session) => match session.next(reply) {
                Step::Ask(request) => Step::Ask(request),
                Step::Done(outcome) => Step::Done(JobEnd::Created(outcome)),
            },
            JobSession::Load(session) => match session.next(reply) {
                Step::Ask(request) => Step::Ask(request),
                Step::Done(outcome) => Step::Done(JobEnd::Loaded(outcome)),
            },
            JobSession::Checkpoint(session) => match session.next(reply) {
                Step::Ask(request) => Step::Ask(request),
                Step::Done(outcome) => Step::Done(JobEnd::Checkpointed(outcome)),
            },
            JobSession::Stream(session) => match session.next(reply) {
                Step::Ask(request) => Step::Ask(request),
                Step::Done(outcome) => Step::Done(JobEnd::Streamed(outcome)),
            },
            JobSession::Read(session) => match session.next(reply) {
                Step::Ask(request) => Step::Ask(request),
                Step::Done(outcome) => Step::Done(JobEnd::Read(outcome)),
            },
        }
    }
}
