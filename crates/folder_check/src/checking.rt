//! The table in a folder, judged.
ghost use Rattle.std.specs.Prelude.{◌≡◌, List, IfOk, IfErr, map, string_bytes, true};
ghost use Rattle.store_core.specs.Calls.{HasRisen};
ghost use Rattle.store_core.specs.Objects.{Objects};
ghost use Rattle.table_audit.specs.LargeFiles as audits;
ghost use Rattle.table_audit.specs.Verdicts.{IsVerdictOf};
ghost use Rattle.table_folder.specs.Traces.{FolderCall, Traced};
ghost use Rattle.folder_check.specs.Beside.{AreBeside};
ghost use Rattle.folder_check.specs.Calls.{Checks};
ghost use Rattle.folder_check.specs.Faults.{ComesOfACall, CheckTellsLargeFile, CheckTellsNoFile};

use crate::beside::lines_beside;
use crate::fault::CheckFault;
use crate::progress::Progress;
use crate::reader::FolderReader;
use std::alloc::Global;
use table_audit::{AuditError, Verdict, audit};
use table_folder::{Folder, LoadFault};

/// What a check finds.
#[derive(Drop)]
pub struct Report {
    /// Whether the objects are sound, and else what breaks them first.
    pub verdict: Verdict,
    /// What lies beside the table, a line each: `leftover NAME`, `stray NAME` or `unnamed NAME`, with names as JSON
    /// strings; or why that isn't known.
    pub beside: Result<Vec<String>, CheckFault>,
}

impl<F: Folder, P: Progress> FolderReader<F, P> {
    /// Judges the table in the folder. Of its commits, the data files that these add for batches, and its checkpoints
    /// each is read once at most, one at a time, up to the first unsound version; then each commit once more for what
    /// lies beside the table. Nothing is written.
    pub fn check(&mut self, alloc: Global) -> Result<Report, CheckFault>
        // Over a steady folder the verdict is that of its files.
        ensures told { F.is_steady self.old.folder → IfOk result (λ report. IsVerdictOf (F.objects self.old.folder) report.verdict) }
        // So are the lines of what lies beside the table.
        ensures lies { F.is_steady self.old.folder → IfOk result (λ report. IfOk report.beside (λ lines. AreBeside (F.objects self.old.folder) (map string_bytes lines.items))) }
        // Over any folder, whoever else writes into it, these calls of it are made, and no others.
        ensures called { (calls : List FolderCall) × Traced F.makes self.old.folder calls self.new.folder × Checks result calls }
        ensures untouched { F.is_steady self.old.folder → F.objects self.new.folder ≡ F.objects self.old.folder }
        ensures steady { F.is_steady self.old.folder → F.is_steady self.new.folder }
        // Where a call of the folder is told as failed, one did.
        ensures counted { IfErr result (ComesOfACall (F.fault_count self.old.folder) (F.fault_count self.new.folder)) }
        // A data file is told as too large only where it is, as one that a commit adds, below whose version all is
        // sound; and in place of a verdict.
        ensures large { F.is_steady self.old.folder → IfErr result (CheckTellsLargeFile (F.objects self.old.folder)) }
        ensures beside { IfOk result (λ report. IfErr report.beside CheckTellsNoFile) }
    {
        let before = self.folder.faults();
        let report = match audit(alloc, self) {
            Ok(verdict) => Ok(Report {
                verdict,
                beside: lines_beside(alloc, self),
            }),
            Err(error) => Err(self.why(error, before)),
        };
        self.progress.finish();
        report
    }

    /// Why an audit ended with an error, before which the folder had counted so many faults: at which file, where a
    /// call of the folder failed.
    pub(crate) fn why(&mut self, error: AuditError, before: u64) -> CheckFault
        ensures folder { self.new.folder ≡ self.old.folder }
        ensures counted { ComesOfACall before (F.fault_count self.old.folder) result }
        ensures large { (objects : Objects) → audits.TellsLargeFile objects error → CheckTellsLargeFile objects result }
        ensures no_file { audits.TellsNoFile error → CheckTellsNoFile result }
    {
        match error {
            AuditError::Lost => match self.take_failed() {
                Some((name, reason)) if has_risen(before, self.folder.faults()) => {
                    CheckFault::Folder(LoadFault::NotLoaded { name, reason })
                }
                _ => CheckFault::Folder(LoadFault::Memory),
            },
            AuditError::Memory => CheckFault::Folder(LoadFault::Memory),
            AuditError::TooLarge { name, .. } => CheckFault::TooLarge { name },
        }
    }
}

/// Whether a folder has counted a fault between two looks at its count, which stays at the greatest number.
fn has_risen(before: u64, after: u64) -> bool
    ensures { result ≡ true → HasRisen before after }
{
    before < after || (before == u64::MAX && after == u64::MAX)
}
