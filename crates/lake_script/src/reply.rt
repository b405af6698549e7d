//! What a line is told, and how it is found.
ghost use Rattle.std.specs.Prelude.{◌≡◌, ◌≢◌, ◌<◌, ◌≤◌, ◌⊎◌, ℕ, List, [], Bool, Result, Err, false, OnOk, OnErr, true};
ghost use Rattle.std.specs.Io.KnownBytes.{Appends};
ghost use Rattle.store_core.specs.Calls.{HasRisen};
ghost use Rattle.store_core.specs.Objects.{Objects};
ghost use Rattle.log_reading.specs.LogCache.{IsCacheOf};
ghost use Rattle.table_log.specs.Restoring.{AreCheckpointsSound, RestoresWell};
ghost use Rattle.lake_script.specs.AnyStore.{IsToldLost, TellsForeign, lost_to_read};
ghost use Rattle.script_lines.specs.Lines.{foreign, look, look_view, tail, task, statement_view, IsTimely};
ghost use Rattle.lake_script.specs.CarriedOut.{IsCarriedOut};
ghost use Rattle.lake_script.specs.Growth.{MayPut};
ghost use Rattle.lake_script.specs.ReplyView.{reply_text, is_short_reply, says_lost};
ghost use Rattle.lake_script.specs.Runs.{Executes, IsShort, no_room_to_read};
ghost use Rattle.lake_script.specs.Sound.{IsExecuted};
ghost use Rattle.lake_script.specs.Streams.{held, waiting, write_failed, WritesFront};
ghost use Rattle.source_core.specs.TailFaults.{ReadGives};
ghost use Rattle.source_core.specs.Tailing.{ReadRefusal};
ghost use Rattle.source_core.specs.TailTexts.{tailed};
ghost use Rattle.lake_script.specs.Told.{tailed_reply};
ghost use Rattle.lake_script.specs.Tries.{SetsTries};

use crate::faults::{Fault, RefusalText};
use crate::foreign::put_line;
use crate::looks::{show, show_in_hex, tell_history, tell_snapshot};
use crate::outputs::{Output, OutputError};
use crate::running::{create_table, run_task};
use commit_core::CreateFault;
use log_reading::LogCache;
use script_lines::{Line, Look};
use sink_core::{SinkFault, SinkOutcome};
use snapshot_core::SnapshotFault;
use source_core::TailFault;
use std::alloc::Global;
use std::io::Write;
use store_core::{Put, Store, StoreFault};

/// What a line is told.
pub enum LineReply {
    /// Version 0 was put.
    Created,
    /// The table was not created.
    NotCreated(CreateFault),
    /// The batch stands in the log, or the stream is closed.
    SinkTold(SinkOutcome),
    /// The batch was not appended, or the stream not closed.
    SinkRefused(SinkFault),
    /// Nothing was handed out.
    NotTailed(TailFault),
    /// An object under the name of that version's checkpoint stands.
    Checkpointed(u64),
    /// No checkpoint was put, or no snapshot told.
    NoSnapshot(SnapshotFault),
    /// The store gave no answer, or no room was left, for the history.
    NoHistory(StoreFault),
    /// Another tool's commit stands, or an object of its name stood already.
    Put(Put),
    /// The program refuses.
    Refused(Fault),
    /// The store gave no answer.
    Unanswered(StoreFault),
    /// An object, as it stands.
    Bytes(Vec<u8>),
    /// An object in hexadecimal.
    Digits(String),
    /// What was set counts from now on.
    Noted,
}

// By hand, so that a drop is one call to prove and not all that it holds (docs/GATE.md).
impl Drop for LineReply {
    fn drop(self) {
        match self {
            LineReply::Created => {}
            LineReply::NotCreated(_) => {}
            LineReply::SinkTold(_) => {}
            LineReply::SinkRefused(_) => {}
            LineReply::NotTailed(_) => {}
            LineReply::Checkpointed(_) => {}
            LineReply::NoSnapshot(_) => {}
            LineReply::NoHistory(_) => {}
            LineReply::Put(_) => {}
            LineReply::Refused(_) => {}
            LineReply::Unanswered(_) => {}
            LineReply::Bytes(_) => {}
            LineReply::Digits(_) => {}
            LineReply::Noted => {}
        }
    }
}

impl LineReply {
    /// Whether a growth was refused, or an object would pass 64 MiB.
    pub fn is_short(&self) -> bool
        ensures { result ≡ is_short_reply self.now }
    {
        matches!(
            self,
            LineReply::NotCreated(CreateFault::Memory | CreateFault::TooLarge)
                | LineReply::SinkRefused(SinkFault::Memory | SinkFault::FileTooLarge)
                | LineReply::NotTailed(TailFault::Memory)
                | LineReply::NoSnapshot(SnapshotFault::Memory | SnapshotFault::TooLarge)
                | LineReply::NoHistory(StoreFault::Memory)
                | LineReply::Unanswered(StoreFault::Memory)
        )
    }

    /// Gives the reply to an output.
    pub fn give<W: Write>(&self, output: &mut Output<W>) -> Result<(), OutputError>
        ensures held { OnOk result (Appends (held W.contents output.old) (held W.contents output.new) (reply_text self.now)) }
        ensures stands { OnErr result (WritesFront (held W.contents output.old) (W.contents output.new.writer) []) }
        ensures unbroken { OnOk result (write_failed output.new ≡ write_failed output.old) }
        ensures broken { result ≡ Err OutputError.Broken → write_failed output.new ≡ true }
        ensures memory { result ≡ Err OutputError.Memory → write_failed output.new ≡ write_failed output.old }
        // Where a growth is refused, nothing of the reply waits.
        ensures whole { result ≡ Err OutputError.Memory → Appends (held W.contents output.old) (held W.contents output.new) [] }
        ensures waits { result ≡ Err OutputError.Memory → (waiting output.new ≡ waiting output.old) ⊎ (waiting output.new ≡ []) }
    {
        match self {
            LineReply::Created => output.say("Created 0"),
            LineReply::NotCreated(fault) => output.say(RefusalText(fault)),
            LineReply::SinkTold(outcome) => say_outcome(outcome, output),
            LineReply::SinkRefused(fault) => output.say(RefusalText(fault)),
            LineReply::NotTailed(fault) => output.say(RefusalText(fault)),
            LineReply::Checkpointed(version) => output.say(format_args!("Checkpointed {version}")),
            LineReply::NoSnapshot(fault) => output.say(RefusalText(fault)),
            LineReply::NoHistory(StoreFault::Lost) => output.say("refused K5 Lost"),
            LineReply::NoHistory(StoreFault::Memory) => output.say("refused K6 Memory"),
            LineReply::Put(Put::Created) => output.say("created"),
            LineReply::Put(Put::Exists) => output.say("taken"),
            LineReply::Refused(fault) => output.say(RefusalText(*fault)),
            LineReply::Unanswered(fault) => output.say(RefusalText(*fault)),
            LineReply::Bytes(bytes) => output.show(bytes.as_slice()),
            LineReply::Digits(text) => output.say(text.as_str()),
            LineReply::Noted => output.say("ok"),
        }
    }
}

/// Tells what became of a batch or a close.
fn say_outcome<W: Write>(outcome: &SinkOutcome, output: &mut Output<W>) -> Result<(), OutputError>
    ensures held { OnOk result (Appends (held W.contents output.old) (held W.contents output.new) (reply_text (LineReply.SinkTold outcome.now))) }
    ensures stands { OnErr result (WritesFront (held W.contents output.old) (W.contents output.new.writer) []) }
    ensures unbroken { OnOk result (write_failed output.new ≡ write_failed output.old) }
    ensures broken { result ≡ Err OutputError.Broken → write_failed output.new ≡ true }
    ensures memory { result ≡ Err OutputError.Memory → write_failed output.new ≡ write_failed output.old }
    // Where a growth is refused, nothing of the reply waits.
    ensures whole { result ≡ Err OutputError.Memory → Appends (held W.contents output.old) (held W.contents output.new) [] }
    ensures waits { result ≡ Err OutputError.Memory → (waiting output.new ≡ waiting output.old) ⊎ (waiting output.new ≡ []) }
{
    match outcome {
        SinkOutcome::Committed { version } => output.say(format_args!("Committed {version}")),
        SinkOutcome::Already { number } => output.say(format_args!("Already {number}")),
        SinkOutcome::Closed { version } => output.say(format_args!("Closed {version}")),
        SinkOutcome::AlreadyClosed => output.say("AlreadyClosed"),
    }
}

/// The reply to a line that reads from an offset on, by what the read told.
pub fn reply_of_read(told: Result<Vec<u8>, TailFault>) -> LineReply
    // Of a read that lost no call that is the reply to the line over the objects that were read.
    ensures told { (use_checkpoints : Bool) (objects : Objects) (max : ℕ) (offset : List ℕ) → RestoresWell use_checkpoints objects → told ≢ Err TailFault.Lost
        → ReadGives (λ text. text.items) told (tailed use_checkpoints objects max offset) → is_short_reply result ≡ false → reply_text result ≡ tailed_reply (tailed false objects max offset) }
    ensures executed { (use_checkpoints : Bool) (objects : Objects) (max : ℕ) (offset : List ℕ) → RestoresWell use_checkpoints objects → told ≢ Err TailFault.Lost
        → ReadGives (λ text. text.items) told (tailed use_checkpoints objects max offset) → Executes objects (task (tail max offset)) (reply_text result) objects }
    ensures wants { is_short_reply result ≡ true → reply_text result ≡ no_room_to_read }
    ensures short { is_short_reply result ≡ true → told ≡ Err TailFault.Memory }
    ensures lost { says_lost result ≡ true → told ≡ Err TailFault.Lost }
    ensures unlost { says_lost result ≡ false → told ≢ Err TailFault.Lost }
    ensures answers { (said : Result (List ℕ) ReadRefusal) → told ≢ Err TailFault.Lost → ReadGives (λ text. text.items) told said
        → (reply_text result ≡ tailed_reply said) ⊎ (reply_text result ≡ no_room_to_read) }
    ensures told_lost { says_lost result ≡ true → reply_text result ≡ lost_to_read }
{
    match told {
        Ok(text) => LineReply::Bytes(text),
        Err(fault) => LineReply::NotTailed(fault),
    }
}

/// The reply to a line that looks, and leaves the objects as they are.
fn tell_look<S: Store>(
    alloc: Global,
    asked: Look<'_>,
    store: &mut S,
    use_checkpoints: bool,
    cache: &mut LogCache,
) -> LineReply
    requires { IsCacheOf (S.objects store.old) cache.old }
    ensures cache { IsCacheOf (S.objects store.new) cache.new }
    ensures carried { (tries : ℕ) → IsCarriedOut (S.is_reliable store.old) use_checkpoints tries cache.old.loaded (look (look_view asked.entry)) (reply_text result) (is_short_reply result) (says_lost result)
        (S.objects store.old, S.in_flight store.old) (S.objects store.new, S.in_flight store.new) (S.fault_count store.old) (S.fault_count store.new) }
    ensures untouched { S.objects store.new ≡ S.objects store.old }
    ensures reliable { S.is_reliable store.old → S.is_reliable store.new }
{
    match asked {
        Look::Snapshot => tell_snapshot(alloc, store, use_checkpoints, cache),
        Look::History => tell_history(alloc, store),
        Look::Show { version } => show(alloc, store, version),
        Look::Hex { name } => show_in_hex(alloc, store, name),
    }
}

/// Sets how many versions appends and closes try from now on: one at least.
fn set_tries(tries: &mut u64, count: u64) -> LineReply
    ensures tries { (1 ≤ tries.new) × (1 ≤ count → tries.new ≡ count) }
    ensures noted { result ≡ LineReply.Noted }
{
    *tries = count.max(1);
    LineReply::Noted
}

/// The reply to a line that puts another tool's commit. Nothing is known of the log behind it.
fn put_foreign<S: Store>(
    alloc: Global,
    store: &mut S,
    version: u64,
    action: &str,
    cache: &mut LogCache,
) -> LineReply
    ensures cache { IsCacheOf (S.objects store.new) cache.new }
    ensures told { S.is_reliable store.old → Executes (S.objects store.old) (foreign version action.now) (reply_text result) (S.objects store.new) }
    ensures whole { S.is_reliable store.old → is_short_reply result ≡ false → IsExecuted (S.objects store.old) (foreign version action.now) (reply_text result) (S.objects store.new) }
    ensures grows { S.is_reliable store.old → MayPut (S.objects store.old) (foreign version action.now) (S.objects store.new) }
    ensures short { is_short_reply result ≡ true → IsShort (S.objects store.old) (foreign version action.now) (reply_text result) }
    ensures reliable { S.is_reliable store.old → S.is_reliable store.new }
    ensures lost { says_lost result ≡ true → HasRisen (S.fault_count store.old) (S.fault_count store.new) }
    ensures counted { says_lost result ≡ false → S.fault_count store.new ≡ S.fault_count store.old }
    ensures any { TellsForeign version action.now (reply_text result)
        (S.objects store.old, S.in_flight store.old) (S.objects store.new, S.in_flight store.new) (S.fault_count store.old) (S.fault_count store.new) }
    ensures told_lost { says_lost result ≡ true → IsToldLost (foreign version action.now) (reply_text result) }
{
    *cache = LogCache::new(alloc);
    match put_line(alloc, store, version, action) {
        Ok(put) => LineReply::Put(put),
        Err(fault) => LineReply::Unanswered(fault),
    }
}

/// Does what a line asks for, and finds its reply. An append and a close try so many versions at most, until a line
/// says otherwise. What is known of the store's log is what earlier calls over this store left, or [`LogCache::new`]:
/// appends, closes and reads needn't read those commits again.
pub fn execute<S: Store>(
    alloc: Global,
    line: Line<'_>,
    store: &mut S,
    tries: &mut u64,
    use_checkpoints: bool,
    cache: &mut LogCache,
) -> LineReply
    requires tries { 1 ≤ tries.old }
    requires timely { IsTimely (statement_view line) }
    requires cache { IsCacheOf (S.objects store.old) cache.old }
    ensures tries { (1 ≤ tries.new) × SetsTries (statement_view line.entry) tries.old tries.new }
    ensures cache { IsCacheOf (S.objects store.new) cache.new }
    ensures carried { IsCarriedOut (S.is_reliable store.old) use_checkpoints tries.old cache.old.loaded (statement_view line.entry) (reply_text result) (is_short_reply result) (says_lost result)
        (S.objects store.old, S.in_flight store.old) (S.objects store.new, S.in_flight store.new) (S.fault_count store.old) (S.fault_count store.new) }
    ensures restores { S.is_reliable store.old → (every : Bool) → AreCheckpointsSound every (S.objects store.old) → AreCheckpointsSound every (S.objects store.new) }
    ensures reliable { S.is_reliable store.old → S.is_reliable store.new }
{
    match line {
        Line::Create { id, at, schema } => create_table(alloc, store, id, at, schema, cache),
        Line::Job(job) => run_task(alloc, job, store, *tries, use_checkpoints, cache),
        Line::Look(asked) => tell_look(alloc, asked, store, use_checkpoints, cache),
        Line::Foreign { version, action } => put_foreign(alloc, store, version, action, cache),
        // A line gives at least one.
        Line::Tries { count } => set_tries(tries, count),
        // Here there are no actors.
        Line::World(_) => LineReply::Refused(Fault::NotYet),
    }
}
