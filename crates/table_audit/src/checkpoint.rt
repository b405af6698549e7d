//! Whether bytes are the checkpoint of a version: its lines are those that the snapshot of the log is printed as, in
//! any order.

ghost use Rattle.std.specs.Prelude.{◌≡◌, ◌⊎◌, ℕ, ◌<◌, ◌^◌, true, List, map, IfOk, IfErr, OnOk, Some};
ghost use Rattle.std.specs.Cmp.Lexicographic.{slice_cmp};
ghost use Rattle.std.specs.List.{AllByRecursion};
ghost use Rattle.std.specs.List.Sorted.{IsSorted};
ghost use Rattle.std.specs.Ordering.{nat_cmp};
ghost use Rattle.delta_actions.specs.Action.{views};
ghost use Rattle.delta_actions.specs.Action as kinds;
ghost use Rattle.delta_actions.specs.Commit.{IsCommit};
ghost use Rattle.delta_actions.specs.Printing.{IsPrintable};
ghost use Rattle.delta_actions.specs.declared.fault.ActionFault.TheVariants as faults;
ghost use Rattle.delta_checkpoint.specs.Checkpoints.{IsCheckpoint};
ghost use Rattle.delta_replay.specs.Snapshots.{IsSnapshotOf};
ghost use Rattle.table_check.specs.Lines.{AreLinesOf, ArePrintedOf};
ghost use Rattle.table_audit.specs.Lines.{AreOwnLines, HasLines, IsFoundRightly};
ghost use Rattle.table_audit.specs.Reasons.{IsUnread};

use delta_actions::{Action, ActionFault, print_line, read_commit};
use delta_checkpoint::print_checkpoint;
use delta_replay::Snapshot;
use std::alloc::{AllocError, Global};

/// What bytes are as a checkpoint of a version.
#[derive(Drop)]
pub(crate) enum Found {
    /// The checkpoint of the version.
    Same,
    /// Another one, or a commit of other actions.
    Other,
    /// A line can't be read.
    Bad(ActionFault),
}

/// What bytes are as the checkpoint of a version, the snapshot of whose log this is.
pub(crate) fn checkpoint_found(
    alloc: Global,
    snapshot: &Snapshot,
    version: u64,
    bytes: &[u8],
) -> Result<Found, AllocError>
    requires { version < 2 ^ 63 }
    ensures { (log : List (List kinds.Action)) → IsSnapshotOf log snapshot.now → AllByRecursion (AllByRecursion IsPrintable) log → IfOk result (λ found. IsFoundRightly found bytes.now version log) }
{
    let lines = match lines_in(alloc, bytes) {
        Ok(lines) => lines,
        Err(ActionFault::Memory) => return Err(AllocError),
        Err(fault) => return Ok(Found::Bad(fault)),
    };
    let own_lines = own_lines(alloc, snapshot, version)?;
    if are_same(&lines, &own_lines) {
        Ok(Found::Same)
    } else {
        Ok(Found::Other)
    }
}

/// The lines of the checkpoint of a version, the snapshot of whose log this is, in the order of their bytes.
fn own_lines(alloc: Global, snapshot: &Snapshot, version: u64) -> Result<Vec<Vec<u8>>, AllocError>
    requires { version < 2 ^ 63 }
    ensures { (log : List (List kinds.Action)) → IsSnapshotOf log snapshot.now → AllByRecursion (AllByRecursion IsPrintable) log → IfOk result (λ lines. AreOwnLines version log (map (λ l. l.items) lines.items)) }
{
    let own = print_checkpoint(alloc, snapshot, version)?;
    match lines_in(alloc, &own) {
        Ok(lines) => Ok(lines),
        Err(_memory) => Err(AllocError),
    }
}

/// The printed lines of the actions that bytes are a commit of, in the order of their bytes.
fn lines_in(alloc: Global, bytes: &[u8]) -> Result<Vec<Vec<u8>>, ActionFault>
    ensures found { IfOk result (λ lines. HasLines bytes.now (map (λ l. l.items) lines.items)) }
    ensures only { (actions : List kinds.Action) → IsCommit bytes.now actions → IfErr result (λ e. e ≡ faults.Memory) }
    ensures fault { IfErr result (λ e. (e ≡ faults.Memory) ⊎ IsUnread e bytes.now) }
{
    let actions = read_commit(alloc, bytes)?;
    let mut lines = lines_of(alloc, &actions)?;
    lines.sort()?;
    Ok(lines)
}

/// The printed lines of actions.
fn lines_of(alloc: Global, actions: &[Action]) -> Result<Vec<Vec<u8>>, AllocError>
    requires { AllByRecursion IsPrintable (views actions.now) }
    ensures { IfOk result (λ lines. ArePrintedOf (map (λ l. l.items) lines.items) (views actions.now)) }
{
    let mut lines = Vec::new(alloc);
    for action in actions {
        let line = print_line(alloc, action)?;
        lines.push(line)?;
    }
    Ok(lines)
}

/// Whether two lists of lines are the same.
fn are_same(lines: &[Vec<u8>], others: &[Vec<u8>]) -> bool
    ensures only { result ≡ true → map (λ l. l.items) lines.now ≡ map (λ l. l.items) others.now }
    ensures found { map (λ l. l.items) lines.now ≡ map (λ l. l.items) others.now → result ≡ true }
{
    if lines.len() != others.len() {
        return false;
    }
    for i in 0..lines.len() {
        if lines[i].as_slice() != others[i].as_slice() {
            return false;
        }
    }
    true
}
