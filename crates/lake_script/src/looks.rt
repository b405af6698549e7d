//! Lines that show what stands and leave the store as it is, and their replies.
ghost use Rattle.std.specs.Prelude.{◌≡◌, false, true};
ghost use Rattle.store_core.specs.Calls.{HasRisen};
ghost use Rattle.store_core.specs.Objects.{object_at};
ghost use Rattle.log_reading.specs.LogCache.{IsCacheOf};
ghost use Rattle.store_core.specs.Names.{commit_name};
ghost use Rattle.table_log.specs.Restoring.{RestoresWell};
ghost use Rattle.commit_core.specs.Histories.{history_of};
ghost use Rattle.script_lines.specs.Lines.{hex, history, look, show, snapshot};
ghost use Rattle.lake_script.specs.AnyStore.{IsToldLost, TellsShownCommit, TellsDigits, TellsHistory, TellsLoss, TellsSnapshotLine};
ghost use Rattle.lake_script.specs.ReplyView.{reply_text, is_short_reply, says_lost};
ghost use Rattle.lake_script.specs.Runs.{Executes, no_room_to_show, no_room_to_tell};
ghost use Rattle.lake_script.specs.Sound.{IsExecuted};
ghost use Rattle.lake_script.specs.Told.{shown, in_hex};

use crate::faults::Fault;
use crate::reply::LineReply;
use crate::showing::hex_of;
use commit_core::history;
use log_reading::LogCache;
use std::alloc::Global;
use store_core::Store;
use table_log::commit_at;

/// The reply to a line that asks for the snapshot.
pub fn tell_snapshot<S: Store>(
    alloc: Global,
    store: &mut S,
    use_checkpoints: bool,
    cache: &mut LogCache,
) -> LineReply
    requires { IsCacheOf (S.objects store.old) cache.old }
    ensures cache { IsCacheOf (S.objects store.old) cache.new }
    ensures told { S.is_reliable store.old → RestoresWell use_checkpoints (S.objects store.old) → Executes (S.objects store.old) (look snapshot) (reply_text result) (S.objects store.new) }
    ensures whole { S.is_reliable store.old → RestoresWell use_checkpoints (S.objects store.old) → is_short_reply result ≡ false → IsExecuted (S.objects store.old) (look snapshot) (reply_text result) (S.objects store.new) }
    ensures wants { RestoresWell use_checkpoints (S.objects store.old) → is_short_reply result ≡ true → reply_text result ≡ no_room_to_tell }
    ensures reliable { S.is_reliable store.old → S.is_reliable store.new }
    // Over any store, one that loses calls too, which it leaves as it was.
    ensures any { TellsSnapshotLine use_checkpoints (reply_text result)
        (S.objects store.old, S.in_flight store.old) (S.objects store.new, S.in_flight store.new) (S.fault_count store.old) (S.fault_count store.new) }
    ensures lost { TellsLoss (look snapshot) result (S.fault_count store.old) (S.fault_count store.new) }
{
    match snapshot_core::snapshot(alloc, store, use_checkpoints, &mut cache.loaded) {
        Ok(text) => LineReply::Bytes(text),
        Err(fault) => LineReply::NoSnapshot(fault),
    }
}

/// The reply to a line that asks for what each version holds.
pub fn tell_history<S: Store>(alloc: Global, store: &mut S) -> LineReply
    ensures told { S.is_reliable store.old → is_short_reply result ≡ false → reply_text result ≡ history_of (S.objects store.old) }
    ensures wants { is_short_reply result ≡ true → reply_text result ≡ no_room_to_tell }
    ensures untouched { S.objects store.new ≡ S.objects store.old }
    ensures reliable { S.is_reliable store.old → S.is_reliable store.new }
    ensures lost { says_lost result ≡ true → HasRisen (S.fault_count store.old) (S.fault_count store.new) }
    ensures counted { says_lost result ≡ false → S.fault_count store.new ≡ S.fault_count store.old }
    ensures any { TellsHistory (reply_text result)
        (S.objects store.old, S.in_flight store.old) (S.objects store.new, S.in_flight store.new) (S.fault_count store.old) (S.fault_count store.new) }
    ensures told_lost { says_lost result ≡ true → IsToldLost (look history) (reply_text result) }
{
    match history(alloc, store) {
        Ok(text) => LineReply::Bytes(text),
        Err(fault) => LineReply::NoHistory(fault),
    }
}

/// The reply to a line that shows a commit.
pub fn show<S: Store>(alloc: Global, store: &mut S, version: u64) -> LineReply
    ensures told { S.is_reliable store.old → is_short_reply result ≡ false
        → reply_text result ≡ shown (object_at (S.objects store.old) (commit_name version)) }
    ensures wants { is_short_reply result ≡ true → reply_text result ≡ no_room_to_show }
    ensures untouched { S.objects store.new ≡ S.objects store.old }
    ensures reliable { S.is_reliable store.old → S.is_reliable store.new }
    ensures lost { says_lost result ≡ true → HasRisen (S.fault_count store.old) (S.fault_count store.new) }
    ensures counted { says_lost result ≡ false → S.fault_count store.new ≡ S.fault_count store.old }
    ensures any { TellsShownCommit version (reply_text result)
        (S.objects store.old, S.in_flight store.old) (S.objects store.new, S.in_flight store.new) (S.fault_count store.old) (S.fault_count store.new) }
    ensures told_lost { says_lost result ≡ true → IsToldLost (look (show version)) (reply_text result) }
{
    match commit_at(alloc, store, version) {
        Ok(Some(bytes)) => LineReply::Bytes(bytes),
        Ok(None) => LineReply::Refused(Fault::NoSuchName),
        Err(fault) => LineReply::Unanswered(fault),
    }
}

/// The reply to a line that shows an object in hexadecimal.
pub fn show_in_hex<S: Store>(alloc: Global, store: &mut S, name: &str) -> LineReply
    ensures told { S.is_reliable store.old → is_short_reply result ≡ false
        → reply_text result ≡ in_hex (object_at (S.objects store.old) name.now) }
    ensures wants { is_short_reply result ≡ true → reply_text result ≡ no_room_to_show }
    ensures untouched { S.objects store.new ≡ S.objects store.old }
    ensures reliable { S.is_reliable store.old → S.is_reliable store.new }
    ensures lost { says_lost result ≡ true → HasRisen (S.fault_count store.old) (S.fault_count store.new) }
    ensures counted { says_lost result ≡ false → S.fault_count store.new ≡ S.fault_count store.old }
    ensures any { TellsDigits name.now (reply_text result)
        (S.objects store.old, S.in_flight store.old) (S.objects store.new, S.in_flight store.new) (S.fault_count store.old) (S.fault_count store.new) }
    ensures told_lost { says_lost result ≡ true → IsToldLost (look (hex name.now)) (reply_text result) }
{
    match hex_of(alloc, store, name) {
        Ok(Some(digits)) => LineReply::Digits(digits),
        Ok(None) => LineReply::Refused(Fault::NoSuchName),
        Err(fault) => LineReply::Unanswered(fault),
    }
}
