//! The snapshot of the table in a folder.
ghost use Rattle.std.specs.Prelude.{◌≡◌, List, IfOk, MatchResult};
ghost use Rattle.table_folder.specs.Faults.{CountsLoad, IsNotLoaded};
ghost use Rattle.table_folder.specs.Traces.{FolderCall, MakeNone, Traced};
ghost use Rattle.folder_session.specs.Snapshots.{IsSnapshot, TellsBy};

use crate::beside::{Beside, drive_beside};
use snapshot_core::{SnapshotFault, snapshot_text};
use std::alloc::Global;
use table_folder::{Folder, LoadFault};
use table_log::{LoadSession, Loaded};

/// Tells the snapshot as `snapshot_core::snapshot` does over a store that has the folder's objects. Of the folder the
/// newest checkpoint is opened, where these are used, and the commits behind it. Fails where a call of the folder
/// fails.
pub fn snapshot<F: Folder>(
    alloc: Global,
    folder: &mut F,
    use_checkpoints: bool,
) -> Result<Result<Vec<u8>, SnapshotFault>, LoadFault>
    ensures told { F.is_steady folder.old → IfOk result (λ told. IsSnapshot use_checkpoints (F.objects folder.old) told) }
    // Over any folder, whoever else writes into it, a load was driven by just these calls, and what it told is told.
    ensures looked { MatchResult result
        (λ told. (calls : List FolderCall) × Traced F.makes folder.old calls folder.new × TellsBy use_checkpoints told calls)
        (λ _. (calls : List FolderCall) × Traced F.makes folder.old calls folder.new × MakeNone calls) }
    ensures untouched { F.is_steady folder.old → F.objects folder.new ≡ F.objects folder.old }
    ensures steady { F.is_steady folder.old → F.is_steady folder.new }
    ensures faults { CountsLoad result (F.fault_count folder.old) (F.fault_count folder.new) }
    ensures never_fails { F.is_reliable folder.old → IsNotLoaded result → ⊥ }
    ensures stays_reliable { F.is_reliable folder.old → F.is_reliable folder.new }
{
    let nothing = Loaded::new(alloc);
    let mut session = LoadSession::new(alloc, use_checkpoints, nothing);
    // A load puts nothing.
    let Beside { outcome, added: _ } = drive_beside(alloc, folder, &mut session)?;
    match outcome {
        Ok(loaded) => Ok(snapshot_text(alloc, &loaded)),
        Err(fault) => Ok(Err(SnapshotFault::from(fault))),
    }
}
