//! Whether the objects of a store, or of whatever else is read as one, are sound.

ghost use Rattle.std.specs.Prelude.{◌≡◌, ℕ, suc, List, Option, Some, map, IfOk, IfErr, IfSome, IfNone, IsErrOf, string_bytes};
ghost use Rattle.store_core.specs.Objects.{object_at};
ghost use Rattle.table_check.specs.Below.{IsSoundBelow};
ghost use Rattle.table_log.specs.Restoring.{IsSoundCheckpoint, checkpoint_version};
ghost use Rattle.table_audit.specs.Audits.{AreCheckpointsOf, Audits, ReadLog};
ghost use Rattle.table_audit.specs.Calls.{ReaderCall, ReaderTraced, reads};
ghost use Rattle.table_audit.specs.LargeFiles.{HasNoLargeBelow, TellsLargeFile, TellsNoFile};
ghost use Rattle.table_audit.specs.Reasons.{IsReasonOf};
ghost use Rattle.table_audit.specs.Verdicts.{IsVerdictOf, end_of};
ghost use Rattle.table_audit.specs.Walks.{IsWalk, IsWalkOver};

use crate::checkpoint::{Found, checkpoint_found};
use crate::fault::AuditError;
use crate::listing::{Listed, sorted_checkpoints};
use crate::reader::ObjectReader;
use crate::reason::{Reason, Unsound};
use crate::verdict::Verdict;
use crate::walk::{Beginning, Reached, Walk, begin, ended, walk_on};
use std::alloc::Global;
use store_core::{GREATEST_VERSION, commit_name};

/// Whether objects are sound: their log is lawful, each batch's file stands and is one of the table's, no commit stands
/// past the log's end, and whatever has the name of a checkpoint is the one of its version (Delta PROTOCOL.md, "Delta
/// Log Entries" and "Checkpoints"). Tells how many versions they have, or the least version whose commit, file or
/// checkpoint breaks them, and why.
///
/// The names are listed once, and each commit, checkpoint and file of a batch is read once at most, one at a time, up
/// to the first unsound version. The time is linear in what is read and in the names, but for logarithms: of a
/// snapshot's places, of the applications of one commit, and of the order of checkpoints' lines and names. `Lost` comes
/// where a call was lost, `Memory` where memory runs out. `TooLarge` comes where a data file is larger than what is
/// read of one: no verdict is told then, but the first version whose commit adds such a file, below which all is sound.
/// No version of a store that is told sound has one, and none below the unsound version that is told.
pub fn audit<R: ObjectReader>(alloc: Global, reader: &mut R) -> Result<Verdict, AuditError>
    ensures told { R.is_steady reader.old → IfOk result (λ verdict. IsVerdictOf (R.objects reader.old) verdict) }
    ensures readable { R.is_steady reader.old → IfOk result (λ verdict. HasNoLargeBelow (R.objects reader.old) (end_of verdict)) }
    // These calls are made of the reader, and no others.
    ensures called { (calls : List ReaderCall) × ReaderTraced R.makes reader.old calls reader.new × Audits calls }
    ensures untouched { R.is_steady reader.old → R.objects reader.new ≡ R.objects reader.old }
    ensures steady { R.is_steady reader.old → R.is_steady reader.new }
    ensures reliable { R.is_reliable reader.old → R.is_reliable reader.new }
    ensures never_lost { R.is_reliable reader.old → IsErrOf result AuditError.Lost → ⊥ }
    ensures large { R.is_steady reader.old → IfErr result (TellsLargeFile (R.objects reader.old)) }
{
    let names = reader.names()?;
    let Some(bytes) = reader.read(&commit_name(alloc, 0)?)? else {
        return ended(alloc, 0, &names);
    };
    match begin(alloc, &bytes)? {
        Beginning::Created(walk) => audit_walk(alloc, reader, &names, walk),
        Beginning::Wrong(reason) => Ok(Verdict::Unsound(Unsound { version: 0, reason })),
    }
}

/// Walks over the log behind its creation, up to each checkpoint and then to its end.
fn audit_walk<R: ObjectReader>(
    alloc: Global,
    reader: &mut R,
    names: &[String],
    mut walk: Walk,
) -> Result<Verdict, AuditError>
    requires { walk.next ≡ 1 }
    ensures told { R.is_steady reader.old → IsWalkOver (R.objects reader.old) (map string_bytes names.now) walk → IfOk result (λ verdict. IsVerdictOf (R.objects reader.old) verdict) }
    ensures readable { R.is_steady reader.old → IsWalkOver (R.objects reader.old) (map string_bytes names.now) walk → IfOk result (λ verdict. HasNoLargeBelow (R.objects reader.old) (end_of verdict)) }
    ensures called { (calls : List ReaderCall) × (checkpoints : List (ℕ × List ℕ)) × ReaderTraced R.makes reader.old calls reader.new
        × AreCheckpointsOf (map string_bytes names.now) checkpoints × ReadLog checkpoints walk.next calls }
    ensures untouched { R.is_steady reader.old → R.objects reader.new ≡ R.objects reader.old }
    ensures steady { R.is_steady reader.old → R.is_steady reader.new }
    ensures reliable { R.is_reliable reader.old → R.is_reliable reader.new }
    ensures never_lost { R.is_reliable reader.old → IsErrOf result AuditError.Lost → ⊥ }
    ensures large { R.is_steady reader.old → IsWalkOver (R.objects reader.old) (map string_bytes names.now) walk → IfErr result (TellsLargeFile (R.objects reader.old)) }
{
    let checkpoints = sorted_checkpoints(alloc, names)?;
    for checkpoint in &checkpoints {
        match walk_on(alloc, reader, names, &mut walk, checkpoint.version)? {
            Reached::Behind => {}
            Reached::Over(verdict) => return Ok(verdict),
        }
        if let Some(reason) = wrong_checkpoint(alloc, reader, &walk, checkpoint)? {
            let version = checkpoint.version;
            return Ok(Verdict::Unsound(Unsound { version, reason }));
        }
    }
    match walk_on(alloc, reader, names, &mut walk, GREATEST_VERSION)? {
        Reached::Behind => Ok(Verdict::Sound {
            versions: walk.next,
        }),
        Reached::Over(verdict) => Ok(verdict),
    }
}

/// Why what stands under the name of a checkpoint isn't that of its version, up to which the walk went.
fn wrong_checkpoint<R: ObjectReader>(
    alloc: Global,
    reader: &mut R,
    walk: &Walk,
    checkpoint: &Listed,
) -> Result<Option<Reason>, AuditError>
    requires next { walk.now.next ≡ suc checkpoint.now.version }
    requires told { checkpoint_version (string_bytes checkpoint.now.name) ≡ Some checkpoint.now.version }
    ensures sound { R.is_steady reader.old → IsWalk (R.objects reader.old) walk.now → IfOk result (λ o. IfNone o ((bytes : List ℕ) → object_at (R.objects reader.old) (string_bytes checkpoint.now.name) ≡ Some bytes → IsSoundCheckpoint (R.objects reader.old) checkpoint.now.version bytes)) }
    ensures breaks { R.is_steady reader.old → IsWalk (R.objects reader.old) walk.now → IfOk result (λ o. IfSome o (λ reason. IsSoundBelow (R.objects reader.old) (suc checkpoint.now.version) → ⊥)) }
    ensures why { R.is_steady reader.old → IsWalk (R.objects reader.old) walk.now → IfOk result (λ o. IfSome o (IsReasonOf (R.objects reader.old) checkpoint.now.version)) }
    ensures called { (told : Option (Option (List ℕ))) × R.makes reader.old (reads (string_bytes checkpoint.now.name) told) reader.new }
    ensures untouched { R.is_steady reader.old → R.objects reader.new ≡ R.objects reader.old }
    ensures steady { R.is_steady reader.old → R.is_steady reader.new }
    ensures reliable { R.is_reliable reader.old → R.is_reliable reader.new }
    ensures never_lost { R.is_reliable reader.old → IsErrOf result AuditError.Lost → ⊥ }
    ensures no_file { IfErr result TellsNoFile }
{
    let Some(bytes) = reader.read(&checkpoint.name)? else {
        return Ok(None);
    };
    match checkpoint_found(alloc, &walk.snapshot, checkpoint.version, &bytes)? {
        Found::Same => Ok(None),
        Found::Other => {
            let name = checkpoint.name.clone()?;
            Ok(Some(Reason::OtherCheckpoint { name }))
        }
        Found::Bad(fault) => {
            let name = checkpoint.name.clone()?;
            Ok(Some(Reason::BadCheckpoint { name, fault }))
        }
    }
}
