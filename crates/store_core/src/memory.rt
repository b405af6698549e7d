//! A store in memory, which loses no call.
ghost use Rattle.std.specs.Prelude.{◌≡◌, ℕ, List, [], None, Ok, map, IfOk, IfSome, OnOk, OnErr, IsErrOf};
ghost use Rattle.std.specs.Option.{option_map};
ghost use Rattle.std.specs.BTreeMap.{IsOrdered};
ghost use Rattle.std.specs.BTreeSet.{insert_key};
ghost use Rattle.std.specs.String.{string_bytes, string_cmp};
ghost use Rattle.outcomes.specs.Bytes.{IsBytes};
ghost use Rattle.store_core.specs.Listed.{listed};
ghost use Rattle.store_core.specs.Objects.{AreBytes, name_order, object_at, names_of};
ghost use Rattle.store_core.specs.Calls.{HasLanded, put_told};
ghost use Rattle.store_core.specs.Memory.{AreNamesOf, objects_of, stored_objects};

use crate::{Names, Put, Store, StoreFault};
use std::alloc::Global;
use std::collections::BTreeMap;
use std::marker::Model;
use std::sync::Arc;

/// How many puts the names are kept through that nobody lists meanwhile: each moves those behind its own.
const MOST_UNLISTED: u64 = 64;

/// A store in memory, seen as the finite map from names to bytes that stands. No call is lost.
#[derive(Drop)]
pub struct MemoryStore {
    alloc: Global,
    objects: BTreeMap<String, Vec<u8>>,
    // The names, once they were listed, with those that were put since. None where there was no room to keep them, or
    // where many puts went through without a list.
    names: Option<Names>,
    // How many puts there were since they were listed.
    unlisted: u64,
}

impl Model for MemoryStore {
    ghost use Rattle.std.specs.FinMap as finite;
    ghost use Rattle.std.specs.Coded.{coded_ℕ, coded_list};
    ghost use Rattle.std.specs.BTreeMap.{IsOrdered};
    ghost use Rattle.std.specs.String.{string_cmp};
    ghost use Rattle.store_core.specs.Memory.{AreNamesOf, Stored, stored_of};

    ghost Value = { Stored };

    ghost coded = { finite.code (coded_list coded_ℕ) (coded_list coded_ℕ) };

    ghost view = { λ store. stored_of store.objects };

    ghost invariant = { λ store. IsOrdered string_cmp store.objects × AreNamesOf store.objects store.names };
}

impl MemoryStore {
    /// A store in which nothing stands. It and all that it answers lie in this memory.
    pub fn new(alloc: Global) -> Self
        ensures { stored_objects result ≡ [] }
    {
        MemoryStore {
            alloc,
            objects: BTreeMap::new(alloc),
            names: None,
            unlisted: 0,
        }
    }

    /// What is so of every store in memory, for contracts: its objects are of bytes. It looks at each object, and reads
    /// none, in time linear in their number.
    pub fn known(&self)
        ensures { AreBytes (stored_objects self.now) }
    {
        are_bytes(&self.objects);
    }
}

impl Store for MemoryStore {
    ghost use Rattle.std.specs.Prelude.{[]};
    ghost use Rattle.store_core.specs.Memory.{IsInOrder-stored, stored_objects};

    ghost objects = { stored_objects };

    ghost in_flight = { λ _. [] };

    ghost fault_count = { λ _. 0 };

    ghost is_reliable = { λ _. Unit {0} };

    ghost makes = { λ _ _. Unit {0} };

    /// Shares the names, in constant time. Only the first time they are copied, in time linear in their bytes, and
    /// behind a put while others shared them, or behind more than 64 puts without a list.
    fn list(&mut self) -> Result<Names, StoreFault> {
        self.unlisted = 0;
        list_in(self.alloc, &self.objects, &mut self.names)
    }

    /// Copies the object's bytes. Finding it takes time logarithmic in the number of names.
    fn get(&mut self, name: &str) -> Result<Option<Vec<u8>>, StoreFault> {
        copy_of(self.alloc, &self.objects, name)
    }

    /// Copies the name and moves the bytes, in time logarithmic in the number of names, but that those behind it make
    /// room for it in the list of names, where that is kept.
    fn put_absent(&mut self, name: &str, bytes: Vec<u8>) -> Result<Put, StoreFault> {
        forget_unlisted(&self.objects, &mut self.names, &mut self.unlisted);
        put_in(self.alloc, &mut self.objects, &mut self.names, name, bytes)
    }

    fn faults(&self) -> u64 {
        0
    }

    ghost in_order = { IsInOrder-stored };
}

/// Each object is of bytes. Each is looked at, and none is read.
fn are_bytes(objects: &BTreeMap<String, Vec<u8>>)
    ensures { AreBytes (objects_of objects.now) }
{
    for bytes in objects.values() {
        is_of_bytes(bytes);
    }
}

/// Bytes are numbers of eight bits.
fn is_of_bytes(bytes: &[u8])
    ensures { IsBytes bytes.now }
{}

/// Copies of the names, in order.
fn names_in(alloc: Global, objects: &BTreeMap<String, Vec<u8>>) -> Result<Vec<String>, StoreFault>
    ensures names { IfOk result (λ names. map string_bytes names.items ≡ names_of (objects_of objects.now)) }
    ensures never_lost { IsErrOf result StoreFault.Lost → ⊥ }
{
    let mut names = Vec::with_capacity(alloc, objects.len())?;
    for name in objects.keys() {
        names.push(String::from_str(alloc, name)?)?;
    }
    Ok(names)
}

/// The names, and they are kept.
fn list_in(
    alloc: Global,
    objects: &BTreeMap<String, Vec<u8>>,
    kept: &mut Option<Names>,
) -> Result<Names, StoreFault>
    requires ordered { IsOrdered string_cmp objects.now }
    requires kept { AreNamesOf objects.now kept.old }
    ensures names { IfOk result (λ names. listed names ≡ names_of (objects_of objects.now)) }
    ensures kept { AreNamesOf objects.now kept.new }
    ensures never_lost { IsErrOf result StoreFault.Lost → ⊥ }
{
    if let Some(names) = kept {
        return Ok(names.clone()?);
    }
    let names = Names::new(alloc, names_in(alloc, objects)?)?;
    *kept = Some(names.clone()?);
    Ok(names)
}

/// The names with one more in its place. None where they are shared, or memory runs out.
fn with_name(alloc: Global, names: Names, name: &str) -> Option<Names>
    ensures { IfSome result (λ later. listed later ≡ insert_key name_order (listed names) name.now) }
{
    let Ok(mut list) = Arc::try_unwrap(names.shared) else {
        return None;
    };
    let Ok(name) = String::from_str(alloc, name) else {
        return None;
    };
    let Err(place) = list.binary_search(&name) else {
        return None;
    };
    match list.insert(place, name) {
        Ok(()) => Names::new(alloc, list).ok(),
        Err(_refused) => None,
    }
}

/// Keeps one name more in its place, where any are kept and there is room; else none is kept any more.
fn keep_name(alloc: Global, kept: &mut Option<Names>, name: &str)
    ensures { (names : List (List ℕ)) → IfSome kept.old (λ kept. listed kept ≡ names)
        → IfSome kept.new (λ later. listed later ≡ insert_key name_order names name.now) }
{
    if let Some(names) = kept.take() {
        *kept = with_name(alloc, names, name);
    }
}

/// Counts a put, and keeps no names any more through which many went without a list.
fn forget_unlisted(
    objects: &BTreeMap<String, Vec<u8>>,
    kept: &mut Option<Names>,
    unlisted: &mut u64,
)
    requires { AreNamesOf objects.now kept.old }
    ensures { AreNamesOf objects.now kept.new }
{
    if *unlisted == MOST_UNLISTED {
        *kept = None;
    } else {
        *unlisted = unlisted.saturating_add(1);
    }
}

/// A copy of the bytes under a name.
#[tactic(auto, using(crate::proofs::Trees::object_at_tree))]
fn copy_of(
    alloc: Global,
    objects: &BTreeMap<String, Vec<u8>>,
    name: &str,
) -> Result<Option<Vec<u8>>, StoreFault>
    ensures object { IfOk result (λ found. option_map (λ bytes. bytes.items) found
        ≡ object_at (objects_of objects.now) name.now) }
    ensures never_lost { IsErrOf result StoreFault.Lost → ⊥ }
{
    match objects.get(name) {
        Some(bytes) => Ok(Some(bytes.to_vec(alloc)?)),
        None => Ok(None),
    }
}

/// Puts bytes under a name that is absent.
fn put_in(
    alloc: Global,
    objects: &mut BTreeMap<String, Vec<u8>>,
    kept: &mut Option<Names>,
    name: &str,
    bytes: Vec<u8>,
) -> Result<Put, StoreFault>
    requires ordered { IsOrdered string_cmp objects.old }
    requires names { AreNamesOf objects.old kept.old }
    ensures told { IfOk result (λ put. put ≡ put_told (object_at (objects_of objects.old) name.now)) }
    ensures created { result ≡ Ok Put.Created → object_at (objects_of objects.old) name.now ≡ None }
    ensures landed { OnOk result (HasLanded name.now bytes.items (objects_of objects.old, []) (objects_of objects.new, [])) }
    ensures memory { OnErr result (objects_of objects.new ≡ objects_of objects.old) }
    ensures never_lost { IsErrOf result StoreFault.Lost → ⊥ }
    ensures ordered { IsOrdered string_cmp objects.new }
    ensures kept { AreNamesOf objects.new kept.new }
{
    if objects.contains_key(name) {
        return Ok(Put::Exists);
    }
    objects.insert(String::from_str(alloc, name)?, bytes)?;
    keep_name(alloc, kept, name);
    Ok(Put::Created)
}
