//! Making a store of a folder's files: of all, or of those of its log.
ghost use Rattle.std.specs.Prelude.{◌≡◌, ◌∷◌, [], ℕ, List, IfOk, OnOk, Option, Some, filter, map, string_bytes};
ghost use Rattle.store_core.specs.Memory.{stored_objects};
ghost use Rattle.store_core.specs.Objects.{names_of};
ghost use Rattle.table_folder.specs.Copies.{with_copies, with_copy, with_found};
ghost use Rattle.table_folder.specs.Faults.{CountsLoad, IsNotLoaded, LoadFailsAmong, LoadFailsAt};
ghost use Rattle.table_folder.specs.Loads.{is_of_log, loaded};
ghost use Rattle.table_folder.specs.Traces.{FolderCall, Loads, ReadsInto, Traced, reads};

use crate::{Folder, LoadFault};
use std::alloc::{AllocError, Global};
use store_core::{MemoryStore, Store};

/// A store of just the folder's files. The fault tells the first file that can't be read, in the order of the names'
/// bytes, or what the folder's listing told. Reads each file once and holds all their bytes in memory.
pub fn load<F: Folder>(alloc: Global, folder: &mut F) -> Result<MemoryStore, LoadFault>
    ensures loaded { F.is_steady folder.old → IfOk result (λ store. stored_objects store ≡ F.objects folder.old) }
    ensures untouched { F.is_steady folder.old → F.objects folder.new ≡ F.objects folder.old }
    ensures steady { F.is_steady folder.old → F.is_steady folder.new }
    // Just these calls are made of the folder, whoever else writes into it, and what is loaded is what they told.
    ensures called { (calls : List FolderCall) × Traced F.makes folder.old calls folder.new × Loads (λ names. names) result calls }

    ensures named { F.is_steady folder.old → LoadFailsAmong (F.path folder.old ∷ names_of (F.objects folder.old)) result }
    ensures faults { CountsLoad result (F.fault_count folder.old) (F.fault_count folder.new) }
    ensures never_fails { F.is_reliable folder.old → IsNotLoaded result → ⊥ }
    ensures stays_reliable { F.is_reliable folder.old → F.is_reliable folder.new }
{
    let mut store = MemoryStore::new(alloc);
    let names = folder.names()?;
    copy_files(folder, &mut store, &names)?;
    Ok(store)
}

/// A store of just the files of the folder's log, told as [`load`] tells all. Lists the folder once and reads no data
/// file.
pub fn load_log<F: Folder>(alloc: Global, folder: &mut F) -> Result<MemoryStore, LoadFault>
    ensures loaded { F.is_steady folder.old → IfOk result (λ store. stored_objects store ≡ loaded [] (F.objects folder.old)) }
    ensures untouched { F.is_steady folder.old → F.objects folder.new ≡ F.objects folder.old }
    ensures steady { F.is_steady folder.old → F.is_steady folder.new }
    // Just these calls are made of the folder, whoever else writes into it, and what is loaded is what they told.
    ensures called { (calls : List FolderCall) × Traced F.makes folder.old calls folder.new × Loads (filter is_of_log) result calls }

    ensures named { F.is_steady folder.old → LoadFailsAmong (F.path folder.old ∷ names_of (F.objects folder.old)) result }
    ensures faults { CountsLoad result (F.fault_count folder.old) (F.fault_count folder.new) }
    ensures never_fails { F.is_reliable folder.old → IsNotLoaded result → ⊥ }
    ensures stays_reliable { F.is_reliable folder.old → F.is_reliable folder.new }
{
    let mut store = MemoryStore::new(alloc);
    let names = folder.names()?;
    let names = log_names(alloc, &names)?;
    copy_files(folder, &mut store, &names)?;
    Ok(store)
}

/// The names of the log's files.
fn log_names(alloc: Global, names: &[String]) -> Result<Vec<String>, AllocError>
    ensures { IfOk result (λ found. map string_bytes found.items ≡ filter is_of_log (map string_bytes names.now)) }
{
    let mut found = Vec::new(alloc);
    for name in names {
        if is_of_log(name.as_str()) {
            found.push(String::from_str(alloc, name.as_str())?)?;
        }
    }
    Ok(found)
}

/// Whether it is the name of a file of the log.
#[tactic(auto, unfolding(crate::specs::Loads::is_of_log))]
fn is_of_log(name: &str) -> bool
    ensures { result ≡ is_of_log name.now }
{
    name.as_bytes().starts_with(b"_delta_log/")
}

/// Reads the files of these names into the store.
fn copy_files<F: Folder>(
    folder: &mut F,
    store: &mut MemoryStore,
    names: &[String],
) -> Result<(), LoadFault>
    ensures copied { F.is_steady folder.old → OnOk result
        (stored_objects store.new ≡ with_copies (F.objects folder.old) (stored_objects store.old) (map string_bytes names.now)) }
    ensures untouched { F.is_steady folder.old → F.objects folder.new ≡ F.objects folder.old }
    ensures steady { F.is_steady folder.old → F.is_steady folder.new }
    ensures called { (calls : List FolderCall) × Traced F.makes folder.old calls folder.new
        × ReadsInto (map string_bytes names.now) (stored_objects store.old) (stored_objects store.new) result calls }

    ensures named { LoadFailsAmong (map string_bytes names.now) result }
    ensures faults { CountsLoad result (F.fault_count folder.old) (F.fault_count folder.new) }
    ensures never_fails { F.is_reliable folder.old → IsNotLoaded result → ⊥ }
    ensures stays_reliable { F.is_reliable folder.old → F.is_reliable folder.new }
{
    for name in names {
        load_one(folder, store, name.as_str())?;
    }
    Ok(())
}

/// Reads one file into the store.
fn load_one<F: Folder>(folder: &mut F, store: &mut MemoryStore, name: &str) -> Result<(), LoadFault>
    ensures loaded { F.is_steady folder.old → OnOk result
        (stored_objects store.new ≡ with_copy (F.objects folder.old) (stored_objects store.old) name.now) }
    ensures untouched { F.is_steady folder.old → F.objects folder.new ≡ F.objects folder.old }
    ensures steady { F.is_steady folder.old → F.is_steady folder.new }
    ensures called { (told : Option (Option (List ℕ))) × F.makes folder.old (reads name.now told) folder.new
        × OnOk result ((found : Option (List ℕ)) × (told ≡ Some found) × (stored_objects store.new ≡ with_found (stored_objects store.old) name.now found)) }

    ensures named { LoadFailsAt name.now result }
    ensures faults { CountsLoad result (F.fault_count folder.old) (F.fault_count folder.new) }
    ensures never_fails { F.is_reliable folder.old → IsNotLoaded result → ⊥ }
    ensures stays_reliable { F.is_reliable folder.old → F.is_reliable folder.new }
{
    let Some(bytes) = folder.read(name)? else {
        return Ok(());
    };
    match store.put_absent(name, bytes) {
        Ok(_put) => Ok(()),
        Err(_fault) => Err(LoadFault::Memory),
    }
}
