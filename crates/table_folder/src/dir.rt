//! A table's folder on a disk.
ghost use Rattle.std.specs.Prelude.{◌≡◌, IfErr, IfOk, IsErr, Ok, string_bytes};
ghost use Rattle.table_folder.specs.Calls.{CountsFailure, FailsAt};
ghost use Rattle.table_folder.specs.Gone.{disk_tells_gone, tells_gone};

use crate::disk::{DiskFault, file_bytes, leftover_names, make_file, make_folder, table_names};
use crate::kind::{FileKind, is_of};
use crate::naming::{LOG, is_table_name};
use crate::{Folder, FolderFault, Reason};
use std::alloc::AllocError;
use std::rt::Files;
use store_core::Put;

/// A table's folder on a disk: its plain files and those of `_delta_log` in it. Links, other folders and names that
/// begin with `.` are passed over. Another name that isn't text fails, also a folder's, and so does a file over 1 GiB.
///
/// It needs hard links: a file is written and synced as `.new-N`, and a link then gives it its name where that is
/// absent. A create that fails removes its `.new-N`; a run that is killed may leave one, and each of those costs later
/// creates a call; where 100,000 of them lie in a folder each create there fails. `leftovers` tells them. Removing them
/// is safe only while no other process writes to the table.
///
/// Of the disk nothing is claimed: this folder is never steady.
#[derive(Drop)]
pub struct DirFolder<R> {
    rt: R,
    path: String,
    faults: u64,
}

impl<R: Files + AllocGlobal + Clone + Drop> DirFolder<R> {
    /// The folder of that path, which needn't be there. Nothing is asked of the disk yet.
    pub fn new(rt: R, path: &str) -> Result<DirFolder<R>, AllocError>
        ensures path { IfOk result (λ folder. ⟦<DirFolder<R> as Folder>⟧.path folder ≡ path.now) }
        ensures faults { IfOk result (λ folder. ⟦<DirFolder<R> as Folder>⟧.fault_count folder ≡ 0) }
    {
        let path = String::from_str(rt.alloc(), path)?;
        Ok(DirFolder {
            rt,
            path,
            faults: 0,
        })
    }

    /// An answer, counted where it is a failure.
    fn counted<T>(&mut self, answer: Result<T, FolderFault>) -> Result<T, FolderFault>
        ensures answer { result ≡ answer }
        ensures counted { CountsFailure result self.old.faults self.new.faults }
    {
        if let Err(FolderFault::Failed { .. }) = &answer {
            self.faults = self.faults.saturating_add(1);
        }
        answer
    }

    /// The path of what has that name in the folder. That of no name is the folder's own, with a slash at its end.
    fn path_of(&self, name: &str) -> Result<String, AllocError> {
        format!(in self.rt.alloc(); "{}/{name}", self.path)
    }

    fn made(&self, name: &str, bytes: &[u8]) -> Result<Put, DiskFault> {
        let is_of_log = name.starts_with(LOG);
        let folder = self.path_of(if is_of_log { LOG } else { "" })?;
        let path = self.path_of(name)?;
        if is_of_log {
            make_folder(&self.rt, self.path.as_str(), folder.as_str())?;
        }
        make_file(&self.rt, folder.as_str(), path.as_str(), bytes)
    }
}

impl<R: Files + AllocGlobal + Clone + Drop> Folder for DirFolder<R> {
    ghost use Rattle.std.specs.Prelude.{[], All, IsSome, IsTrue, false, map, true};
    ghost use Rattle.table_folder.specs.Calls.{IsFailed};
    ghost use Rattle.table_folder.specs.Gone.{tells_gone};
    ghost use Rattle.table_folder.specs.Kinds.{is_data};
    ghost use Rattle.table_folder.specs.Names.{is_leftover, is_table_name};
    ghost use Rattle.table_folder.specs.Orders.{IsInOrder-none};

    ghost objects = { λ _. [] };

    ghost path = { λ folder. string_bytes folder.path };

    ghost fault_count = { λ folder. folder.faults };

    ghost is_steady = { λ _. ⊥ };

    ghost is_reliable = { λ _. ⊥ };

    ghost makes = { λ _ _ _. Unit {0} };

    /// Reads both folders and syncs them. Each name is a plain file name that doesn't begin with `.`, alone or behind
    /// `_delta_log/`.
    fn names(&mut self) -> Result<Vec<String>, FolderFault>
        ensures shown { IfOk result (λ names.
            All (λ name. IsTrue (is_table_name name)) (map string_bytes names.items)) }
        ensures faults { CountsFailure result
            (⟦<DirFolder<R> as Folder>⟧.fault_count self.old) (⟦<DirFolder<R> as Folder>⟧.fault_count self.new) }
    {
        let names = table_names(&self.rt, self.path.as_str());
        self.counted(names)
    }

    /// Reads the file, of at most 1 GiB. A name that is no table file's is absent. A commit or a checkpoint fails where
    /// it is absent: only those that were listed are read, and a log without one of them would be another one. Each
    /// other name may be one that a commit gives and nobody has.
    fn read(&mut self, name: &str) -> Result<Option<Vec<u8>>, FolderFault>
        ensures gone { tells_gone result ≡ true → is_data name.now ≡ false }
        ensures stands { is_data name.now ≡ false → IfOk result IsSome }
        ensures named { FailsAt name.now result }
        ensures faults { CountsFailure result
            (⟦<DirFolder<R> as Folder>⟧.fault_count self.old) (⟦<DirFolder<R> as Folder>⟧.fault_count self.new) }
    {
        let refused = String::from_str(self.rt.alloc(), name)?;
        match self.find(name) {
            Ok(None) if !is_of(FileKind::Data, name) => self.counted(Err(FolderFault::Failed {
                name: refused,
                reason: Reason::Gone,
            })),
            found => found,
        }
    }

    /// Reads the file, of at most 1 GiB. A name that is no table file's is absent.
    fn find(&mut self, name: &str) -> Result<Option<Vec<u8>>, FolderFault>
        ensures not_gone { tells_gone result ≡ false }
        ensures named { FailsAt name.now result }
        ensures faults { CountsFailure result
            (⟦<DirFolder<R> as Folder>⟧.fault_count self.old) (⟦<DirFolder<R> as Folder>⟧.fault_count self.new) }
    {
        if !is_table_name(name) {
            return Ok(None);
        }
        let refused = String::from_str(self.rt.alloc(), name)?;
        let path = self.path_of(name)?;
        let found = told_at(refused, file_bytes(&self.rt, path.as_str()));
        self.counted(found)
    }

    /// Writes the file and syncs it and its folder. A name that is no table file's fails, and so does one under which
    /// something stands that is no plain file.
    fn create(&mut self, name: &str, bytes: Vec<u8>) -> Result<Put, FolderFault> {
        let refused = String::from_str(self.rt.alloc(), name)?;
        if !is_table_name(name) {
            return self.counted(Err(FolderFault::Failed {
                name: refused,
                reason: Reason::Other,
            }));
        }
        let put = told_at(refused, self.made(name, bytes.as_slice()));
        self.counted(put)
    }

    /// Reads both folders, and syncs neither. A file that another process is writing just now is told too.
    fn leftovers(&mut self) -> Result<Vec<String>, FolderFault>
        ensures shown { IfOk result (λ names.
            All (λ name. IsTrue (is_leftover name)) (map string_bytes names.items)) }
        ensures faults { CountsFailure result
            (⟦<DirFolder<R> as Folder>⟧.fault_count self.old) (⟦<DirFolder<R> as Folder>⟧.fault_count self.new) }
    {
        let left = leftover_names(&self.rt, self.path.as_str());
        self.counted(left)
    }

    fn faults(&self) -> u64 {
        self.faults
    }

    ghost in_order = { λ _. IsInOrder-none };
}

/// What a call of the disk told at the file of that name.
fn told_at<T>(name: String, told: Result<T, DiskFault>) -> Result<T, FolderFault>
    ensures answer { IfOk told (λ value. result ≡ Ok value) }
    ensures failed { IfErr told (λ _. IsErr result) }
    ensures named { FailsAt (string_bytes name) result }
    ensures gone { IfErr told (λ fault. tells_gone result ≡ disk_tells_gone fault) }
{
    match told {
        Ok(value) => Ok(value),
        Err(DiskFault::Failed(reason)) => Err(FolderFault::Failed { name, reason }),
        Err(DiskFault::Memory) => Err(FolderFault::Memory),
    }
}
