//! The names that a store lists: how they are made, and read.
ghost use Rattle.std.specs.Prelude.{◌≡◌, IfOk, MatchBool, MatchOption, map};
ghost use Rattle.std.specs.List.Sorted.{IsStrictlySortedBy};
ghost use Rattle.std.specs.String.{string_bytes};
ghost use Rattle.store_core.specs.Listed.{listed};
ghost use Rattle.store_core.specs.Objects.{name_order};

use crate::names::Names;
use std::alloc::{AllocError, Global};
use std::sync::Arc;

impl Clone for Names {
    ghost is_clone = { λ names copy. listed copy ≡ listed names };

    ghost is_infallible = { λ _. ⊥ };

    fn clone(&self) -> Result<Names, AllocError> {
        let shared = self.shared.clone()?;
        Ok(Names { shared })
    }
}

impl Names {
    /// These names, which rise. Fails where memory runs out.
    pub fn new(alloc: Global, names: Vec<String>) -> Result<Names, AllocError>
        requires { IsStrictlySortedBy name_order (map string_bytes names.items) }
        ensures { IfOk result (λ shared. listed shared ≡ map string_bytes names.items) }
    {
        match Arc::new(alloc, names) {
            Ok(shared) => Ok(Names { shared }),
            Err(_refused) => Err(AllocError),
        }
    }

    /// These names, where they rise, and else `None`. Takes time linear in their bytes, and fails where memory runs
    /// out.
    pub fn rising(alloc: Global, names: Vec<String>) -> Result<Option<Names>, AllocError>
        ensures { IfOk result (λ found. MatchOption found (¬ IsStrictlySortedBy name_order (map string_bytes names.items)) (λ shared. listed shared ≡ map string_bytes names.items)) }
    {
        if rise(names.as_slice()) {
            Ok(Some(Names::new(alloc, names)?))
        } else {
            Ok(None)
        }
    }

    /// The names.
    pub fn as_slice(&self) -> &[String]
        ensures { map string_bytes result.now ≡ listed self.now }
    {
        self.shared.as_slice()
    }

    /// A copy of the names, in time linear in their bytes. Fails where memory runs out.
    pub fn to_vec(&self) -> Result<Vec<String>, AllocError>
        ensures { IfOk result (λ names. map string_bytes names.items ≡ listed self.now) }
    {
        (*self.shared).clone()
    }
}

/// Whether the names rise, each below the next.
fn rise(names: &[String]) -> bool
    ensures { MatchBool result (IsStrictlySortedBy name_order (map string_bytes names.now)) (¬ IsStrictlySortedBy name_order (map string_bytes names.now)) }
{
    let mut place = 1;
    while place < names.len() {
        if names[place - 1] >= names[place] {
            return false;
        }
        place += 1;
    }
    true
}
