//! The reply to a job, by what its session told.
ghost use Rattle.lake_script.specs.ReplyView.{is_short_reply, reply_text, says_lost};
ghost use Rattle.table_jobs.specs.Jobs.{creation};
ghost use Rattle.table_jobs.specs.Sessions.{end_view};
ghost use Rattle.lake_script.specs.Endings.{IsReadReply, IsReadShort, IsReplyOf, IsShortBy, checkpoint_end_reply, kept_schema, learnt, reply_loses, stream_loses, stream_reply};
ghost use Rattle.table_jobs.specs.Wants.{checkpoint_wants, creation_wants, stream_wants};
ghost use Rattle.commit_core.specs.CreateSessions.{creation_tells_lost};
ghost use Rattle.snapshot_core.specs.CheckpointSessions.{is_lost_answer};
ghost use Rattle.source_core.specs.SourceSessions.{loses};
ghost use Rattle.std.specs.Prelude.{◌≡◌};

use crate::faults::Fault;
use crate::reply::LineReply;
use commit_core::CreateFault;
use log_reading::{LogCache, TableSchema};
use sink_core::{SinkFault, SinkOutcome};
use snapshot_core::SnapshotFault;
use source_core::{ReadRows, TailFault, handed_text};
use std::alloc::Global;
use table_jobs::JobEnd;

/// The reply to a line whose job told this. Where there is no room for rows, it tells so.
pub fn reply_of(alloc: Global, end: JobEnd) -> LineReply
    ensures told { IsReplyOf (end_view end) (reply_text result) }
    // It is short just where the session told want of memory, or where there was no room for the rows' text, and it
    // says that a call was lost just where the session told so.
    ensures short { IsShortBy (end_view end) (reply_text result) (is_short_reply result) }
    ensures lost { says_lost result ≡ reply_loses (end_view end) }
{
    reply_learning(alloc, end, &mut LogCache::new(alloc))
}

/// The reply to a line whose job told this, as [`reply_of`] finds it. What the job's session knew of the log by its end
/// goes into the cache.
pub fn reply_learning(alloc: Global, end: JobEnd, cache: &mut LogCache) -> LineReply
    ensures told { IsReplyOf (end_view end) (reply_text result) }
    ensures short { IsShortBy (end_view end) (reply_text result) (is_short_reply result) }
    ensures lost { says_lost result ≡ reply_loses (end_view end) }
    ensures learnt { cache.new ≡ learnt (end_view end) (is_short_reply result) cache.old }
{
    match end {
        JobEnd::Created(answer) => reply_of_creation(answer),
        JobEnd::Checkpointed(end) => {
            cache.loaded = end.known;
            reply_of_checkpoint(end.answer)
        }
        JobEnd::Streamed(end) => {
            cache.loaded = end.known;
            reply_of_stream(end.answer)
        }
        JobEnd::Read(end) => {
            cache.log = end.known;
            cache.file = end.file;
            reply_of_rows(alloc, end.answer, &mut cache.schema)
        }
        // No line asks for a load.
        JobEnd::Loaded(_result) => LineReply::Refused(Fault::NotYet),
    }
}

fn reply_of_creation(answer: Result<(), CreateFault>) -> LineReply
    ensures told { IsReplyOf (creation answer) (reply_text result) }
    ensures short { is_short_reply result ≡ creation_wants answer }
    ensures lost { says_lost result ≡ creation_tells_lost answer }
{
    match answer {
        Ok(()) => LineReply::Created,
        Err(fault) => LineReply::NotCreated(fault),
    }
}

fn reply_of_checkpoint(answer: Result<u64, SnapshotFault>) -> LineReply
    ensures told { reply_text result ≡ checkpoint_end_reply answer }
    ensures short { is_short_reply result ≡ checkpoint_wants answer }
    ensures lost { says_lost result ≡ is_lost_answer answer }
{
    match answer {
        Ok(version) => LineReply::Checkpointed(version),
        Err(fault) => LineReply::NoSnapshot(fault),
    }
}

fn reply_of_stream(answer: Result<SinkOutcome, SinkFault>) -> LineReply
    ensures told { reply_text result ≡ stream_reply answer }
    ensures short { is_short_reply result ≡ stream_wants answer }
    ensures lost { says_lost result ≡ stream_loses answer }
{
    match answer {
        Ok(outcome) => LineReply::SinkTold(outcome),
        Err(fault) => LineReply::SinkRefused(fault),
    }
}

fn reply_of_rows(
    alloc: Global,
    answer: Result<ReadRows, TailFault>,
    schema: &mut Option<TableSchema>,
) -> LineReply
    ensures told { IsReadReply answer (reply_text result) }
    ensures short { IsReadShort answer (reply_text result) (is_short_reply result) }
    ensures lost { says_lost result ≡ loses answer }
    ensures kept { schema.new ≡ kept_schema schema.old answer (is_short_reply result) }
{
    match answer {
        Ok(handed) => match handed_text(alloc, &handed) {
            Ok(text) => {
                *schema = Some(handed.into_schema());
                LineReply::Bytes(text)
            }
            Err(_error) => LineReply::NotTailed(TailFault::Memory),
        },
        Err(fault) => LineReply::NotTailed(fault),
    }
}
