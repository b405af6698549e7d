//! What a store of objects is to the code above it.
ghost use Rattle.std.specs.Prelude.{◌≡◌, ℕ, List, None, Ok, IfOk, OnOk, IsErrOf};
ghost use Rattle.std.specs.Option.{option_map};
ghost use Rattle.std.specs.List.Sorted.{IsStrictlySortedBy};
ghost use Rattle.store_core.specs.Listed.{listed};
ghost use Rattle.store_core.specs.Objects.{Objects, object_at, names_of, name_order, IsInOrder};
ghost use Rattle.store_core.specs.Calls.{Flight, HasLanded, MayHaveLanded, IsUntouched, CountsFault, StandsAfter, put_told};

use crate::{Names, StoreFault};

/// What a put answers.
#[derive(Clone, Copy, Debug, PartialEq, Eq)]
pub enum Put {
    /// The name was absent, and stands with the bytes that were put.
    Created,
    /// The name stands. Where it stood before, it kept its bytes.
    Exists,
}

/// A finite map from names to bytes, in which a name is put at most once: what stands is never changed or removed.
///
/// The contract holds of a store that loses calls too. A call that is lost answers `StoreFault::Lost`, and
/// `StoreFault::Memory` stands for memory that ran out, with nothing changed.
pub trait Store {
    /// The finite map from names to bytes that stands.
    ghost objects: { Self → Objects };

    /// The puts whose answers were lost and that the store's own type may let take effect later, between two calls,
    /// each as often as it was sent.
    ghost in_flight: { Self → Flight };

    /// How often a call was lost. At 2^64 - 1 it stays.
    ghost fault_count: { Self → ℕ };

    /// The store answers as one of a single thread does: no call is lost or repeated.
    ghost is_reliable: { Self → Type 0 };

    /// What one call may make of a store, whatever it tells. Code that is proved for any store has to say by it which
    /// calls it makes; a store that doesn't care takes any two values.
    ghost makes: { Self → Self → Type 0 };

    /// All names that stand, in the order of their bytes, each once.
    fn list(&mut self) -> Result<Names, StoreFault>
        ensures names { IfOk result (λ names. listed names ≡ names_of (objects self.old)) }
        ensures rising { IfOk result (λ names. IsStrictlySortedBy name_order (listed names)) }

        ensures untouched { IsUntouched (objects self.old, in_flight self.old) (objects self.new, in_flight self.new) }
        ensures faults { CountsFault result (fault_count self.old) (fault_count self.new) }
        ensures called { makes self.old self.new }

        ensures never_lost { is_reliable self.old → IsErrOf result StoreFault.Lost → ⊥ }
        ensures stays_reliable { is_reliable self.old → is_reliable self.new };

    /// The bytes that stand under a name, or `None` where the name is absent.
    fn get(&mut self, name: &str) -> Result<Option<Vec<u8>>, StoreFault>
        ensures object { IfOk result (λ found. option_map (λ bytes. bytes.items) found
            ≡ object_at (objects self.old) name.now) }

        ensures untouched { IsUntouched (objects self.old, in_flight self.old) (objects self.new, in_flight self.new) }
        ensures faults { CountsFault result (fault_count self.old) (fault_count self.new) }
        ensures called { makes self.old self.new }

        ensures never_lost { is_reliable self.old → IsErrOf result StoreFault.Lost → ⊥ }
        ensures stays_reliable { is_reliable self.old → is_reliable self.new };

    /// Puts bytes under a name, unless the name stands. A put that is lost may have landed, or land later, or never.
    fn put_absent(&mut self, name: &str, bytes: Vec<u8>) -> Result<Put, StoreFault>
        ensures created { result ≡ Ok Put.Created → object_at (objects self.old) name.now ≡ None }
        ensures stands { IfOk result (λ put. StandsAfter put bytes.items (object_at (objects self.new) name.now)) }
        ensures landed { OnOk result (HasLanded name.now bytes.items
            (objects self.old, in_flight self.old) (objects self.new, in_flight self.new)) }
        ensures lost { IsErrOf result StoreFault.Lost → MayHaveLanded name.now bytes.items
            (objects self.old, in_flight self.old) (objects self.new, in_flight self.new) }
        ensures memory { IsErrOf result StoreFault.Memory → IsUntouched
            (objects self.old, in_flight self.old) (objects self.new, in_flight self.new) }

        ensures faults { CountsFault result (fault_count self.old) (fault_count self.new) }
        ensures called { makes self.old self.new }

        ensures told { is_reliable self.old → IfOk result (λ put. put ≡ put_told (object_at (objects self.old) name.now)) }
        ensures never_lost { is_reliable self.old → IsErrOf result StoreFault.Lost → ⊥ }
        ensures stays_reliable { is_reliable self.old → is_reliable self.new };

    /// How often a call was lost. At 2^64 - 1 it stays.
    fn faults(&self) -> u64
        ensures { result ≡ fault_count self.now };

    /// Names strictly rise by their bytes, in any store.
    ghost in_order: { (store : Self) → IsInOrder (objects store) };
}
