//! Each session's next step: it may make it in every sound store that bears its talk.

ghost use Rattle.std.specs.Prelude.{◌≡◌, List, Option, false, option_map};
ghost use Rattle.store_core.specs.Objects.{Objects};
ghost use Rattle.session_core.specs.Sessions.{Goes, Steps, TellsLost};
ghost use Rattle.session_core.specs.Talks.{Asked, IsReplyTo, Talk, heard, told_view};
ghost use Rattle.table_model.specs.Table.{Entry};
ghost use Rattle.table_store.specs.Schema.{Schema};
ghost use Rattle.table_log.specs.LoadSessions as load_sessions;
ghost use Rattle.snapshot_core.specs.CheckpointSessions as checkpoint_sessions;
ghost use Rattle.commit_core.specs.CreateSessions as create_sessions;
ghost use Rattle.sink_core.specs.SinkFits as sink_fits;
ghost use Rattle.sink_core.specs.SinkSessions as sink_sessions;
ghost use Rattle.source_core.specs.SourceSessions as source_sessions;
ghost use Rattle.session_laws.specs.May.{Hears, BearsSession, StepMay};
ghost use Rattle.table_jobs.specs.Jobs.{checkpoint, checkpoints, creates, creation, load, loads, read, reads, stream, streams};

use crate::what_a_session_may;
use commit_core::{CreateFault, CreateSession};
use session_core::{Reply, Session, Step};
use sink_core::{SinkEnd, SinkSession};
use snapshot_core::{CheckpointEnd, CheckpointSession};
use source_core::{ReadEnd, SourceSession};
use table_log::{LoadSession, Loaded, LogFault};

/// The next step of a creation.
pub fn create_step(
    session: &mut CreateSession,
    reply: Option<Reply>,
) -> Step<Result<(), CreateFault>>
    requires unended { create_sessions.is_ended session.old.stage ≡ false }
    requires answered { IsReplyTo (create_sessions.awaited_at session.old.stage) (option_map told_view reply) }
    ensures steps { Steps (λ s. create_sessions.awaited_at s.stage) (λ s. create_sessions.left_at s.stage) (λ s. create_sessions.is_ended s.stage) session.old session.new result }
    ensures goes { (before talk : Talk) (asked : Option Asked) → create_sessions.CreateFits before session.old talk asked
        → Goes (create_sessions.CreateFits before) (create_sessions.CreateAsks (create_sessions.job_of session.old) before) (create_sessions.CreateEnds (create_sessions.job_of session.old) before) session.new (heard talk asked (option_map told_view reply)) result }
    ensures told { TellsLost create_sessions.creation_tells_lost (option_map told_view reply) result }
    ensures same { create_sessions.job_of session.new ≡ create_sessions.job_of session.old }
    ensures may { (objects : Objects) (schema : Schema) (entries : List Entry) (before talk now : Talk) (asked : Option Asked) → create_sessions.CreateFits before session.old talk asked
        → Hears talk asked (option_map told_view reply) now → BearsSession objects schema entries (creates (create_sessions.job_of session.old)) before now
        → StepMay objects schema entries (creates (create_sessions.job_of session.old)) before now creation result }
{
    what_a_session_may();
    session.next(reply)
}

/// The next step of a load.
pub fn load_step(session: &mut LoadSession, reply: Option<Reply>) -> Step<Result<Loaded, LogFault>>
    requires unended { load_sessions.is_ended session.old.stage ≡ false }
    requires answered { IsReplyTo (load_sessions.awaited_at session.old.stage) (option_map told_view reply) }
    ensures steps { Steps (λ s. load_sessions.awaited_at s.stage) (λ s. load_sessions.left_at s.stage) (λ s. load_sessions.is_ended s.stage) session.old session.new result }
    ensures goes { (before talk : Talk) (asked : Option Asked) → load_sessions.LoadFits before session.old talk asked
        → Goes (load_sessions.LoadFits before) (load_sessions.LoadAsks (load_sessions.job_of session.old) before) (load_sessions.LoadEnds (load_sessions.job_of session.old) before) session.new (heard talk asked (option_map told_view reply)) result }
    ensures told { TellsLost load_sessions.is_lost_load (option_map told_view reply) result }
    ensures same { load_sessions.job_of session.new ≡ load_sessions.job_of session.old }
    ensures may { (objects : Objects) (schema : Schema) (entries : List Entry) (before talk now : Talk) (asked : Option Asked) → load_sessions.LoadFits before session.old talk asked
        → Hears talk asked (option_map told_view reply) now → BearsSession objects schema entries (loads (load_sessions.job_of session.old)) before now
        → StepMay objects schema entries (loads (load_sessions.job_of session.old)) before now load result }
{
    what_a_session_may();
    session.next(reply)
}

/// The next step of a checkpoint's put.
pub fn checkpoint_step(session: &mut CheckpointSession, reply: Option<Reply>) -> Step<CheckpointEnd>
    requires unended { checkpoint_sessions.is_ended session.old.stage session.old.load ≡ false }
    requires answered { IsReplyTo (checkpoint_sessions.awaited_at session.old.stage session.old.load) (option_map told_view reply) }
    ensures steps { Steps (λ s. checkpoint_sessions.awaited_at s.stage s.load) (λ s. checkpoint_sessions.left_at s.stage s.load) (λ s. checkpoint_sessions.is_ended s.stage s.load) session.old session.new result }
    ensures goes { (before talk : Talk) (asked : Option Asked) → checkpoint_sessions.CheckpointFits before session.old talk asked
        → Goes (checkpoint_sessions.CheckpointFits before) (checkpoint_sessions.CheckpointAsks (checkpoint_sessions.job_of session.old) before) (checkpoint_sessions.CheckpointEnds (checkpoint_sessions.job_of session.old) before) session.new (heard talk asked (option_map told_view reply)) result }
    ensures told { TellsLost checkpoint_sessions.is_lost_checkpoint (option_map told_view reply) result }
    ensures same { checkpoint_sessions.job_of session.new ≡ checkpoint_sessions.job_of session.old }
    ensures may { (objects : Objects) (schema : Schema) (entries : List Entry) (before talk now : Talk) (asked : Option Asked) → checkpoint_sessions.CheckpointFits before session.old talk asked
        → Hears talk asked (option_map told_view reply) now → BearsSession objects schema entries (checkpoints (checkpoint_sessions.job_of session.old)) before now
        → StepMay objects schema entries (checkpoints (checkpoint_sessions.job_of session.old)) before now checkpoint result }
{
    what_a_session_may();
    session.next(reply)
}

/// The next step of an append or a close.
pub fn stream_step<'r>(session: &mut SinkSession<'r>, reply: Option<Reply>) -> Step<SinkEnd>
    requires unended { sink_fits.is_ended session.old.stage session.old ≡ false }
    requires answered { IsReplyTo (sink_fits.awaited_at session.old.stage session.old) (option_map told_view reply) }
    ensures steps { Steps (λ s. sink_fits.awaited_at s.stage s) (λ s. sink_fits.left_at s.stage s) (λ s. sink_fits.is_ended s.stage s) session.old session.new result }
    ensures goes { (before talk : Talk) (asked : Option Asked) → sink_fits.SinkFits before session.old talk asked
        → Goes (sink_fits.SinkFits before) (sink_sessions.SinkAsks (sink_sessions.job_of session.old) before) (sink_sessions.SinkEnds (sink_sessions.job_of session.old) before) session.new (heard talk asked (option_map told_view reply)) result }
    ensures told { TellsLost sink_sessions.is_lost_end (option_map told_view reply) result }
    ensures same { sink_sessions.job_of session.new ≡ sink_sessions.job_of session.old }
    ensures may { (objects : Objects) (schema : Schema) (entries : List Entry) (before talk now : Talk) (asked : Option Asked) → sink_fits.SinkFits before session.old talk asked
        → Hears talk asked (option_map told_view reply) now → BearsSession objects schema entries (streams (sink_sessions.job_of session.old)) before now
        → StepMay objects schema entries (streams (sink_sessions.job_of session.old)) before now stream result }
{
    what_a_session_may();
    session.next(reply)
}

/// The next step of a read of rows.
pub fn read_step(session: &mut SourceSession, reply: Option<Reply>) -> Step<ReadEnd>
    requires unended { source_sessions.is_ended session.old.stage ≡ false }
    requires answered { IsReplyTo (source_sessions.awaited_at session.old.stage) (option_map told_view reply) }
    ensures steps { Steps (λ s. source_sessions.awaited_at s.stage) (λ s. source_sessions.left_of s.stage) (λ s. source_sessions.is_ended s.stage) session.old session.new result }
    ensures goes { (before talk : Talk) (asked : Option Asked) → source_sessions.SourceFits before session.old talk asked
        → Goes (source_sessions.SourceFits before) (source_sessions.SourceAsks (source_sessions.job_of session.old) before) (source_sessions.SourceEnds (source_sessions.job_of session.old) before) session.new (heard talk asked (option_map told_view reply)) result }
    ensures told { TellsLost source_sessions.is_lost_read (option_map told_view reply) result }
    ensures same { source_sessions.job_of session.new ≡ source_sessions.job_of session.old }
    ensures may { (objects : Objects) (schema : Schema) (entries : List Entry) (before talk now : Talk) (asked : Option Asked) → source_sessions.SourceFits before session.old talk asked
        → Hears talk asked (option_map told_view reply) now → BearsSession objects schema entries (reads (source_sessions.job_of session.old)) before now
        → StepMay objects schema entries (reads (source_sessions.job_of session.old)) before now read result }
{
    what_a_session_may();
    session.next(reply)
}
