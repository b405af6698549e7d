//! A folder in memory that another process writes to as well.

use std::alloc::{AllocError, Global};
use store_core::{MemoryStore, Put, Store};
use table_folder::{Folder, FolderFault, MemoryFolder};

/// A file that another process makes while a command runs.
pub struct Rival<'a> {
    /// How many files the command makes or finds taken before it.
    pub behind: u64,
    pub name: &'a str,
    pub bytes: Vec<u8>,
}

// One call where it is dropped.
impl Drop for Rival<'_> {
    fn drop(self) {
        let Rival {
            behind: _,
            name: _,
            bytes: _,
        } = self;
    }
}

/// A folder in memory, in which rivals make their files right before the command comes to make one. Nothing is claimed
/// of it: it is never steady.
pub struct SharedFolder<'a> {
    alloc: Global,
    files: MemoryFolder,
    rivals: &'a [Rival<'a>],
    creates: u64,
}

// One call where it is dropped.
impl Drop for SharedFolder<'_> {
    fn drop(self) {
        let SharedFolder {
            alloc: _,
            files: _,
            rivals: _,
            creates: _,
        } = self;
    }
}

impl<'a> SharedFolder<'a> {
    /// A folder with these files, before a run beside these rivals.
    pub fn new(alloc: Global, files: MemoryFolder, rivals: &'a [Rival<'a>]) -> SharedFolder<'a> {
        SharedFolder {
            alloc,
            files,
            rivals,
            creates: 0,
        }
    }

    /// The files that are left.
    pub fn into_files(self) -> MemoryFolder {
        let SharedFolder {
            alloc: _,
            files,
            rivals: _,
            creates: _,
        } = self;
        files
    }
}

/// The rivals whose turn it is make their files, where the names are absent.
fn make_rivals(
    alloc: Global,
    store: &mut MemoryStore,
    rivals: &[Rival<'_>],
    creates: u64,
) -> Result<(), AllocError> {
    for rival in rivals {
        if rival.behind == creates {
            let bytes = rival.bytes.to_vec(alloc)?;
            store.put_absent(rival.name, bytes).map_err(|_| AllocError)?;
        }
    }
    Ok(())
}

impl Folder for SharedFolder<'_> {
    ghost use Rattle.std.specs.Prelude.{[]};
    ghost use Rattle.table_folder.specs.Orders.{IsInOrder-none};

    ghost objects = { λ _. [] };

    ghost path = { λ _. [] };

    ghost fault_count = { λ folder. ⟦<MemoryFolder as Folder>⟧.fault_count folder.files };

    ghost is_steady = { λ _. ⊥ };

    ghost is_reliable = { λ _. ⊥ };

    ghost makes = { λ _ _ _. Unit {0} };

    fn names(&mut self) -> Result<Vec<String>, FolderFault> {
        self.files.names()
    }

    fn read(&mut self, name: &str) -> Result<Option<Vec<u8>>, FolderFault> {
        self.files.read(name)
    }

    fn find(&mut self, name: &str) -> Result<Option<Vec<u8>>, FolderFault> {
        self.files.find(name)
    }

    fn create(&mut self, name: &str, bytes: Vec<u8>) -> Result<Put, FolderFault> {
        make_rivals(self.alloc, &mut self.files.store, self.rivals, self.creates)?;
        self.creates = self.creates.saturating_add(1);
        self.files.create(name, bytes)
    }

    fn leftovers(&mut self) -> Result<Vec<String>, FolderFault> {
        self.files.leftovers()
    }

    fn faults(&self) -> u64 {
        self.files.faults()
    }

    ghost in_order = { λ _. IsInOrder-none };
}
