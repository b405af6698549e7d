//! A folder in memory, which can be made to stop.
ghost use Rattle.std.specs.Prelude.{◌≡◌, IfOk, IsOkAnd, OnOk, OnErr, IsErr, IsErrOf, IsOkUnless};
ghost use Rattle.store_core.specs.Calls.{HasRisen, put_told};
ghost use Rattle.store_core.specs.Memory.{stored_objects};
ghost use Rattle.store_core.specs.Objects.{object_at, with_object};
ghost use Rattle.table_folder.specs.Calls.{CountsFailure, FailsAt, IsFailed, MayHaveMade};
ghost use Rattle.table_folder.specs.Stops.{stop_turn, later_stop};

use crate::{Folder, FolderFault, Reason};
use std::alloc::Global;
use store_core::{MemoryStore, Put, Store};

/// Which create of a folder in memory fails. It is one: those after it take effect.
#[derive(Clone, Copy, Debug, PartialEq, Eq)]
pub enum Stop {
    /// None.
    Never,
    /// The one after so many others, before it takes effect.
    Before(u64),
    /// The one after so many others, once it has taken effect.
    After(u64),
}

/// What becomes of one create.
#[derive(Clone, Copy, Debug, PartialEq, Eq)]
pub enum CreateTurn {
    /// It takes effect, and its answer comes.
    Pass,
    /// It fails before it takes effect.
    FailBefore,
    /// It takes effect, and fails then.
    FailAfter,
}

/// A folder in memory, whose files are the objects of a store. A create that fails is counted.
#[derive(Drop)]
pub struct MemoryFolder {
    alloc: Global,
    /// The files, as objects under their names.
    pub store: MemoryStore,
    /// Which create fails. Once it has failed, none.
    pub stop: Stop,
    faults: u64,
}

impl MemoryFolder {
    /// A folder with the store's objects as its files, of which one create may fail.
    pub fn new(alloc: Global, store: MemoryStore, stop: Stop) -> MemoryFolder
        ensures store { result.store ≡ store }
        ensures stop { result.stop ≡ stop }
        ensures faults { ⟦<MemoryFolder as Folder>⟧.fault_count result ≡ 0 }
    {
        MemoryFolder {
            alloc,
            store,
            stop,
            faults: 0,
        }
    }

    /// What becomes of the next create.
    fn next_turn(&mut self) -> CreateTurn
        ensures turn { result ≡ stop_turn self.old.stop }
        ensures left { self.new ≡ record self.old { stop = later_stop self.old.stop } }
    {
        let (turn, stop) = match self.stop {
            Stop::Never => (CreateTurn::Pass, Stop::Never),
            Stop::Before(0) => (CreateTurn::FailBefore, Stop::Never),
            Stop::Before(creates) => (CreateTurn::Pass, Stop::Before(creates - 1)),
            Stop::After(0) => (CreateTurn::FailAfter, Stop::Never),
            Stop::After(creates) => (CreateTurn::Pass, Stop::After(creates - 1)),
        };
        self.stop = stop;
        turn
    }

    /// One more create fails. At the greatest number the count stays.
    fn fail(&mut self)
        ensures kept { self.new ≡ record self.old { faults = self.new.faults } }
        ensures counted { HasRisen self.old.faults self.new.faults }
    {
        self.faults = self.faults.saturating_add(1);
    }
}

impl Folder for MemoryFolder {
    ghost use Rattle.std.specs.Prelude.{[]};
    ghost use Rattle.store_core.specs.Memory.{IsInOrder-stored};
    ghost use Rattle.table_folder.specs.declared.memory.Stop.TheVariants.{Never};

    ghost objects = { λ folder. stored_objects folder.store };

    ghost path = { λ _. [] };

    ghost fault_count = { λ folder. folder.faults };

    ghost is_steady = { λ _. Unit {0} };

    ghost is_reliable = { λ folder. folder.stop ≡ Never };

    ghost makes = { λ _ _ _. Unit {0} };

    /// Copies the names.
    fn names(&mut self) -> Result<Vec<String>, FolderFault> {
        match self.store.list() {
            Ok(names) => Ok(names.to_vec()?),
            Err(_fault) => Err(FolderFault::Memory),
        }
    }

    /// Copies the object's bytes.
    fn read(&mut self, name: &str) -> Result<Option<Vec<u8>>, FolderFault> {
        self.store.get(name).map_err(|_| FolderFault::Memory)
    }

    /// Copies the object's bytes.
    fn find(&mut self, name: &str) -> Result<Option<Vec<u8>>, FolderFault> {
        self.store.get(name).map_err(|_| FolderFault::Memory)
    }

    /// Copies the name and moves the bytes. It is the stop that says whether it fails, before it takes effect or after,
    /// and each create that memory suffices for is one of those that the stop counts.
    fn create(&mut self, name: &str, bytes: Vec<u8>) -> Result<Put, FolderFault>
        ensures passes { stop_turn self.old.stop ≡ CreateTurn.Pass → IsFailed result → ⊥ }
        ensures before { stop_turn self.old.stop ≡ CreateTurn.FailBefore
            → IsErr result × (stored_objects self.new.store ≡ stored_objects self.old.store) }
        ensures after { stop_turn self.old.stop ≡ CreateTurn.FailAfter → IsErr result × (IsFailed result
            → stored_objects self.new.store ≡ with_object (stored_objects self.old.store) name.now bytes.items) }
        ensures left { (IsErrOf result FolderFault.Memory → ⊥) → self.new.stop ≡ later_stop self.old.stop }
        ensures told { IfOk result (λ put. put ≡ put_told (object_at (stored_objects self.old.store) name.now)) }
        ensures made { OnOk result
            (stored_objects self.new.store ≡ with_object (stored_objects self.old.store) name.now bytes.items) }
        ensures failed { IsFailed result
            → MayHaveMade name.now bytes.items (stored_objects self.old.store) (stored_objects self.new.store) }
        ensures memory { IsErrOf result FolderFault.Memory
            → stored_objects self.new.store ≡ stored_objects self.old.store }
        ensures named { FailsAt name.now result }
        ensures faults { CountsFailure result
            (⟦<MemoryFolder as Folder>⟧.fault_count self.old) (⟦<MemoryFolder as Folder>⟧.fault_count self.new) }
        ensures stays_reliable { self.old.stop ≡ Stop.Never → self.new.stop ≡ Stop.Never }
    {
        let refused = FolderFault::Failed {
            name: String::from_str(self.alloc, name)?,
            reason: Reason::Other,
        };
        match self.next_turn() {
            CreateTurn::Pass => put_in(&mut self.store, name, bytes),
            CreateTurn::FailBefore => {
                self.fail();
                Err(refused)
            }
            CreateTurn::FailAfter => {
                put_in(&mut self.store, name, bytes)?;
                self.fail();
                Err(refused)
            }
        }
    }

    /// None: a create leaves its file or nothing.
    fn leftovers(&mut self) -> Result<Vec<String>, FolderFault>
        ensures none { IsOkAnd result (λ names. names.items ≡ []) }
        ensures untouched { self.new ≡ self.old }
    {
        Ok(Vec::new(self.alloc))
    }

    fn faults(&self) -> u64 {
        self.faults
    }

    ghost in_order = { λ folder. IsInOrder-stored folder.store };
}

/// Puts an object that is absent.
fn put_in(store: &mut MemoryStore, name: &str, bytes: Vec<u8>) -> Result<Put, FolderFault>
    ensures told { IfOk result (λ put. put ≡ put_told (object_at (stored_objects store.old) name.now)) }
    ensures made { OnOk result (stored_objects store.new ≡ with_object (stored_objects store.old) name.now bytes.items) }
    ensures memory { OnErr result (stored_objects store.new ≡ stored_objects store.old) }
    ensures only_memory { IsOkUnless result FolderFault.Memory }
{
    store
        .put_absent(name, bytes)
        .map_err(|_| FolderFault::Memory)
}
