//! Putting a store's new objects into a folder.
ghost use Rattle.std.specs.Prelude.{◌≡◌, ◌++◌, ℕ, List, None, IsSome, IsErr, IfOk, OnOk, IsErrOf, filter, map, not, bytes_eq, string_bytes};
ghost use Rattle.std.specs.BTreeSet.{contains_text};
ghost use Rattle.std.specs.List.{list_any};
ghost use Rattle.store_core.specs.Calls.{IsUntouched};
ghost use Rattle.store_core.specs.Objects.{object_at};
ghost use Rattle.table_folder.specs.Copies.{MayHaveSaved, new_names, with_copy};
ghost use Rattle.table_folder.specs.Faults.{CountsLost, CountsSave, FailsWhereStood, IsNotSaved, SaveFailsAt};
ghost use Rattle.table_folder.specs.Kinds.{is_checkpoint, is_commit, is_data, is_file_of_kind};
ghost use Rattle.table_folder.specs.Saving.{SavesInto, SavesOver};
ghost use Rattle.table_folder.specs.Traces.{FolderCall, Saves, SavesOne, Traced};

use crate::kind::{FileKind, is_of};
use crate::{Folder, Reason, SaveFault};
use std::alloc::{AllocError, Global};
use std::collections::BTreeSet;
use store_core::{Put, Store};

/// Puts into the folder the store's objects whose names aren't among those `loaded`, the names that stood in the store
/// when the table was loaded: data files by name, then commits rising, then checkpoints by name. So new data files are
/// made before new commits, and these in rising order. What stands is never changed: the first name to save that stands
/// is `NotSaved`, and so is the first that the folder failed at. What was saved before a fault stays. Lists the store
/// once, and holds one object's bytes at a time.
pub fn save<F: Folder, S: Store>(
    alloc: Global,
    folder: &mut F,
    store: &mut S,
    loaded: &[String],
) -> Result<(), SaveFault>
    // Of a steady folder: what stood stands, with a front of what was to be saved, or, where it is Ok, with all of it.
    ensures done { F.is_steady folder.old → SavesInto loaded.now (F.is_reliable folder.old) (S.objects store.old)
        (F.objects folder.old) (F.objects folder.new) result }
    // Just these calls are made of the folder, whoever else writes into it.
    ensures called { (calls : List FolderCall) × Traced F.makes folder.old calls folder.new
        × Saves (S.objects store.old) (new_names loaded.now (S.objects store.old)) result calls }
    ensures over { SavesOver (new_names loaded.now (S.objects store.old)) (F.is_steady folder.old) (F.objects folder.old)
        result (F.fault_count folder.old) (F.fault_count folder.new) (S.fault_count store.old) (S.fault_count store.new) }
    ensures store { IsUntouched (S.objects store.old, S.in_flight store.old) (S.objects store.new, S.in_flight store.new) }
    ensures never_lost { S.is_reliable store.old → IsErrOf result SaveFault.Lost → ⊥ }
    ensures steady { F.is_steady folder.old → F.is_steady folder.new }
    ensures stays_reliable { F.is_reliable folder.old → F.is_reliable folder.new }
    ensures store_stays_reliable { S.is_reliable store.old → S.is_reliable store.new }
{
    let names = names_to_save(alloc, store, loaded)?;
    for name in &names {
        save_one(alloc, folder, store, name.as_str())?;
    }
    Ok(())
}

/// The names of the store that weren't loaded, in the order of saving.
fn names_to_save<S: Store>(
    alloc: Global,
    store: &mut S,
    loaded: &[String],
) -> Result<Vec<String>, SaveFault>
    ensures names { IfOk result (λ names. map string_bytes names.items ≡ new_names loaded.now (S.objects store.old)) }
    ensures store { IsUntouched (S.objects store.old, S.in_flight store.old) (S.objects store.new, S.in_flight store.new) }
    ensures saved { IsNotSaved result → ⊥ }
    ensures lost { CountsLost result (S.fault_count store.old) (S.fault_count store.new) }
    ensures never_lost { S.is_reliable store.old → IsErrOf result SaveFault.Lost → ⊥ }
    ensures stays_reliable { S.is_reliable store.old → S.is_reliable store.new }
{
    let names = store.list()?;
    let lacking = lacking_names(alloc, loaded, names.as_slice())?;
    Ok(names_in_order(alloc, &lacking)?)
}

/// Copies one object into the folder, where its name must be absent.
fn save_one<F: Folder, S: Store>(
    alloc: Global,
    folder: &mut F,
    store: &mut S,
    name: &str,
) -> Result<(), SaveFault>
    ensures saved { F.is_steady folder.old → OnOk result
        (F.objects folder.new ≡ with_copy (S.objects store.old) (F.objects folder.old) name.now) }
    ensures fresh { F.is_steady folder.old → OnOk result
        (IsSome (object_at (S.objects store.old) name.now) → object_at (F.objects folder.old) name.now ≡ None) }
    ensures refused { F.is_steady folder.old → IsErr result
        → MayHaveSaved (S.objects store.old) name.now (F.objects folder.old) (F.objects folder.new) }
    ensures called { (calls : List FolderCall) × Traced F.makes folder.old calls folder.new
        × SavesOne (S.objects store.old) name.now result calls }
    ensures store { IsUntouched (S.objects store.old, S.in_flight store.old) (S.objects store.new, S.in_flight store.new) }

    ensures named { SaveFailsAt name.now result }
    ensures faults { CountsSave (F.is_steady folder.old) (F.objects folder.old) result
        (F.fault_count folder.old) (F.fault_count folder.new) }
    ensures lost { CountsLost result (S.fault_count store.old) (S.fault_count store.new) }
    ensures never_fails { F.is_steady folder.old → F.is_reliable folder.old → FailsWhereStood (F.objects folder.old) result }
    ensures never_lost { S.is_reliable store.old → IsErrOf result SaveFault.Lost → ⊥ }

    ensures steady { F.is_steady folder.old → F.is_steady folder.new }
    ensures stays_reliable { F.is_reliable folder.old → F.is_reliable folder.new }
    ensures store_stays_reliable { S.is_reliable store.old → S.is_reliable store.new }
{
    let refused = SaveFault::NotSaved {
        name: String::from_str(alloc, name)?,
        reason: Reason::Taken,
    };
    let Some(bytes) = store.get(name)? else {
        return Ok(());
    };
    match folder.create(name, bytes)? {
        Put::Created => Ok(()),
        Put::Exists => Err(refused),
    }
}

/// The names that aren't held.
fn lacking_names(
    alloc: Global,
    held: &[String],
    names: &[String],
) -> Result<Vec<String>, AllocError>
    ensures { IfOk result (λ lacking. map string_bytes lacking.items
        ≡ filter (λ name. not (list_any (bytes_eq name) (map string_bytes held.now))) (map string_bytes names.now)) }
{
    let files = set_of(alloc, held)?;
    names_outside(alloc, &files, names)
}

/// The names that aren't in the set.
fn names_outside(
    alloc: Global,
    set: &BTreeSet<String>,
    names: &[String],
) -> Result<Vec<String>, AllocError>
    ensures { IfOk result (λ outside. map string_bytes outside.items
        ≡ filter (λ name. not (contains_text set.now name)) (map string_bytes names.now)) }
{
    let mut outside = Vec::new(alloc);
    for name in names {
        if is_outside(set, name.as_str()) {
            outside.push(String::from_str(alloc, name.as_str())?)?;
        }
    }
    Ok(outside)
}

fn is_outside(set: &BTreeSet<String>, name: &str) -> bool
    ensures { result ≡ not (contains_text set.now name.now) }
{
    !set.contains(name)
}

/// These names as a set.
fn set_of(alloc: Global, names: &[String]) -> Result<BTreeSet<String>, AllocError>
    ensures { IfOk result (λ set. (name : List ℕ)
        → contains_text set name ≡ list_any (bytes_eq name) (map string_bytes names.now)) }
{
    let mut set = BTreeSet::new(alloc);
    for name in names {
        set.insert(String::from_str(alloc, name.as_str())?)?;
    }
    Ok(set)
}

/// The names of data files, then those of commits, then those of checkpoints.
fn names_in_order(alloc: Global, names: &[String]) -> Result<Vec<String>, AllocError>
    ensures { IfOk result (λ ordered. map string_bytes ordered.items
        ≡ filter is_data (map string_bytes names.now) ++ filter is_commit (map string_bytes names.now)
        ++ filter is_checkpoint (map string_bytes names.now)) }
{
    let mut ordered = Vec::with_capacity(alloc, names.len())?;
    add_kind(alloc, &mut ordered, names, FileKind::Data)?;
    add_kind(alloc, &mut ordered, names, FileKind::Commit)?;
    add_kind(alloc, &mut ordered, names, FileKind::Checkpoint)?;
    Ok(ordered)
}

/// Adds copies of the names of that kind.
fn add_kind(
    alloc: Global,
    ordered: &mut Vec<String>,
    names: &[String],
    kind: FileKind,
) -> Result<(), AllocError>
    ensures { OnOk result (map string_bytes ordered.new.items
        ≡ map string_bytes ordered.old.items ++ filter (is_file_of_kind kind) (map string_bytes names.now)) }
{
    for name in names {
        if is_of(kind, name.as_str()) {
            ordered.push(String::from_str(alloc, name.as_str())?)?;
        }
    }
    Ok(())
}
