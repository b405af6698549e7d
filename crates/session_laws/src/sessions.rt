//! What each session may ask for and tell next, in every sound store that bears its talk: laws, each a function that
//! does nothing.

ghost use Rattle.std.specs.Prelude.{List, Result};
ghost use Rattle.store_core.specs.Objects.{Objects};
ghost use Rattle.session_core.specs.Talks.{Asked, Talk};
ghost use Rattle.table_model.specs.Table.{Entry};
ghost use Rattle.table_store.specs.Schema.{Schema};
ghost use Rattle.table_log.specs.LoadSessions.{LoadAsks, LoadJob};
ghost use Rattle.table_log.specs.declared.fault.LogFault.{LogFault};
ghost use Rattle.table_log.specs.declared.loading.Loaded.{Loaded};
ghost use Rattle.snapshot_core.specs.CheckpointSessions.{CheckpointAsks};
ghost use Rattle.snapshot_core.specs.declared.checkpoint_session.CheckpointEnd.{CheckpointEnd};
ghost use Rattle.sink_core.specs.SinkSessions.{SinkAsks, SinkEnds, SinkJob};
ghost use Rattle.sink_core.specs.declared.sink_state.SinkEnd.{SinkEnd};
ghost use Rattle.source_core.specs.SourceSessions.{SourceAsks, SourceJob};
ghost use Rattle.source_core.specs.declared.source_session.ReadEnd.{ReadEnd};
ghost use Rattle.session_laws.specs.May.{BearsSession, May, MayAsk, TellsWhatWasCreated};
ghost use Rattle.table_jobs.specs.Jobs.{IsValidJob, Job, checkpoint, checkpoints, load, loads, read, reads, streams};
ghost use Rattle.session_laws.specs.Rows.{MayTellOfCheckpoint, MayTellOfLoad, MayTellOfRead, MayTellOfStream};
ghost use Rattle.session_laws.specs.Moves.{Does, HasAsked, Move, tells};

use commit_core::{what_a_commit_may, what_a_creation_may};

/// A load asks for lists and gets, and tells the snapshot of the commits that were listed, which all stand; or a commit
/// that is lacked: where none was listed, where not all below the newest were, or where its get gave nothing: what is
/// got can be read.
pub fn what_a_load_may()
    ensures asks { (objects : Objects) (schema : Schema) (entries : List Entry) (job : LoadJob) (before talk : Talk) (asked : Asked) → BearsSession objects schema entries (loads job) before talk
        → LoadAsks job before talk asked → MayAsk objects schema (loads job) talk asked }
    ensures tells { (objects : Objects) (schema : Schema) (entries : List Entry) (job : LoadJob) (before talk : Talk) (result : Result Loaded LogFault) → BearsSession objects schema entries (loads job) before talk
        → Does (loads job) before talk (tells (load result)) → MayTellOfLoad objects talk result }
{}

/// The put of a checkpoint asks, besides, that a checkpoint is put: one of the log's commits up to its version, under a
/// name of such. It tells the newest version that was listed, which has an object under such a name, with the snapshot
/// of the commits up to it; a commit that is lacked; or why the commits that were listed have no checkpoint, with their
/// snapshot.
pub fn what_a_checkpoint_may()
    ensures asks { (objects : Objects) (schema : Schema) (entries : List Entry) (job : LoadJob) (before talk : Talk) (asked : Asked) → BearsSession objects schema entries (checkpoints job) before talk
        → CheckpointAsks job before talk asked → MayAsk objects schema (checkpoints job) talk asked }
    ensures tells { (objects : Objects) (schema : Schema) (entries : List Entry) (job : LoadJob) (before talk : Talk) (end : CheckpointEnd) → BearsSession objects schema entries (checkpoints job) before talk
        → Does (checkpoints job) before talk (tells (checkpoint end)) → MayTellOfCheckpoint objects talk end.known end.answer }
{}

/// The append of a batch asks that a file of its rows is put under the batch's name, and then its commit, to the byte,
/// as the version that comes next, where it is admissible: its number is new there, its stream open, and its file
/// stands. The close of a stream asks that its commit is put, so too. What they tell is so of the table: that this
/// version holds the batch, or is the close; that the batch stands, with these rows, or the close; that a greater
/// number stands; that the close stands, and all numbers are below the batch's; that no file of its rows stands under
/// its name, of those within the limits of what is read, or that nothing was got there. Or it is so of their talk: that
/// as many versions were taken as may be tried, and the last of them; which call was lost; which commit is lacked. Or
/// the rules say so of the commits that were listed, or known where the session loads nothing, and of the winners. That
/// a winner changed the schema isn't told. Of want of memory nothing is said.
pub fn what_a_stream_may()
    ensures asks { (objects : Objects) (schema : Schema) (entries : List Entry) (job : SinkJob) (before talk : Talk) (asked : Asked) → BearsSession objects schema entries (streams job) before talk → IsValidJob (streams job)
        → SinkAsks job before talk asked → MayAsk objects schema (streams job) talk asked }
    ensures tells { (objects : Objects) (schema : Schema) (entries : List Entry) (job : SinkJob) (before talk : Talk) (end : SinkEnd) → BearsSession objects schema entries (streams job) before talk → IsValidJob (streams job)
        → SinkEnds job before talk end → MayTellOfStream objects schema entries job talk end.answer }
{
    what_a_commit_may();
}

/// A read of rows asks for lists and gets. That a call was lost it tells only right behind one that was. Where its talk
/// shows a store as it stood when the names were listed, which is a sound one whose files can be read and has grown
/// since, it tells by the table's schema a part of its versions that were listed: the rows from the offset on, which
/// end with as many as it was to hand out, or at the start of the version that came next then; or that the offset is
/// past their end, or in no file of its version; and of a log without versions that version 0 is missing. No other
/// refusal comes there, but for want of memory.
pub fn what_a_read_may()
    ensures asks { (objects : Objects) (schema : Schema) (entries : List Entry) (job : SourceJob) (before talk : Talk) (asked : Asked) → BearsSession objects schema entries (reads job) before talk
        → SourceAsks job before talk asked → MayAsk objects schema (reads job) talk asked }
    ensures tells { (objects : Objects) (schema : Schema) (entries : List Entry) (job : SourceJob) (before talk : Talk) (end : ReadEnd) → BearsSession objects schema entries (reads job) before talk
        → Does (reads job) before talk (tells (read end)) → MayTellOfRead objects schema entries job before talk end.answer }
{}

/// What any session does next it may do, in every sound store that bears its talk. Right behind a put that created its
/// commit it tells that, with that very version, and does nothing else.
pub fn what_a_session_may()
    ensures may { (objects : Objects) (schema : Schema) (entries : List Entry) (job : Job) (before talk : Talk) (move : Move) → BearsSession objects schema entries job before talk → IsValidJob job → Does job before talk move
        → May objects schema entries job before talk move }
    ensures created { (job : Job) (before talk : Talk) (move : Move) → HasAsked job before talk → Does job before talk move → TellsWhatWasCreated talk move }
{
    what_a_creation_may();
    what_a_load_may();
    what_a_checkpoint_may();
    what_a_stream_may();
    what_a_read_may();
}
