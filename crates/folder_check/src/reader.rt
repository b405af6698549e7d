//! A table's folder, as the objects that an audit reads.
ghost use Rattle.std.specs.Prelude.{◌≡◌, IfErr, None};
ghost use Rattle.table_folder.specs.Traces.{looks};
ghost use Rattle.folder_check.specs.Calls.{folder_call};
ghost use Rattle.folder_check.specs.Faults.{CheckTellsNoFile};

use crate::fault::CheckFault;
use crate::progress::Progress;
use store_core::StoreFault;
use table_audit::ObjectReader;
use table_folder::{Folder, FolderFault, LoadFault, Reason};

/// A folder whose files are read for an audit, and who is told how many were. A call of the folder that fails is told
/// as lost, and why it failed is kept.
#[derive(Drop)]
pub struct FolderReader<F, P> {
    pub folder: F,
    pub(crate) progress: P,
    /// At what the last call that failed did, and why.
    failed: Option<(String, Reason)>,
    /// How many files the last listing told, and how many reads were done since.
    total: u64,
    done: u64,
}

impl<F: Folder, P: Progress> FolderReader<F, P> {
    /// A reader of this folder, of which nothing was read.
    pub fn new(folder: F, progress: P) -> FolderReader<F, P>
        ensures { result.folder ≡ folder }
    {
        FolderReader {
            folder,
            progress,
            failed: None,
            total: 0,
            done: 0,
        }
    }

    /// At what the last call that failed did, and why, if one did since this was asked last.
    pub(crate) fn take_failed(&mut self) -> Option<(String, Reason)>
        ensures { self.new.folder ≡ self.old.folder }
    {
        self.failed.take()
    }

    /// The names of files that killed runs have left.
    pub(crate) fn leftovers(&mut self) -> Result<Vec<String>, CheckFault>
        ensures untouched { F.is_steady self.old.folder → F.objects self.new.folder ≡ F.objects self.old.folder }
        ensures steady { F.is_steady self.old.folder → F.is_steady self.new.folder }
        ensures called { F.makes self.old.folder looks self.new.folder }
        ensures no_file { IfErr result CheckTellsNoFile }
    {
        match self.folder.leftovers() {
            Ok(names) => Ok(names),
            Err(fault) => Err(CheckFault::Folder(LoadFault::from(fault))),
        }
    }

    /// What a fault of the folder is told as.
    fn fault_of(&mut self, fault: FolderFault) -> StoreFault
        ensures folder { self.new.folder ≡ self.old.folder }
        ensures memory { fault ≡ FolderFault.Memory → result ≡ StoreFault.Memory }
    {
        match fault {
            FolderFault::Failed { name, reason } => {
                self.failed = Some((name, reason));
                StoreFault::Lost
            }
            FolderFault::Memory => StoreFault::Memory,
        }
    }
}

impl<F: Folder, P: Progress> ObjectReader for FolderReader<F, P> {
    ghost objects = { λ reader. F.objects reader.folder };

    ghost is_steady = { λ reader. F.is_steady reader.folder };

    ghost is_reliable = { λ reader. F.is_reliable reader.folder };

    ghost makes = { λ old call new. F.makes old.folder (folder_call call) new.folder };

    fn names(&mut self) -> Result<Vec<String>, StoreFault> {
        match self.folder.names() {
            Ok(names) => {
                self.total = names.len() as u64;
                self.done = 0;
                Ok(names)
            }
            Err(fault) => Err(self.fault_of(fault)),
        }
    }

    fn read(&mut self, name: &str) -> Result<Option<Vec<u8>>, StoreFault> {
        match self.folder.find(name) {
            Ok(bytes) => {
                self.done = self.done.saturating_add(1);
                self.progress.step(self.done, self.total);
                Ok(bytes)
            }
            Err(fault) => Err(self.fault_of(fault)),
        }
    }
}
