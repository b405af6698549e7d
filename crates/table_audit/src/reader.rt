//! The objects of a store, as far as they are read.

ghost use Rattle.std.specs.Prelude.{◌≡◌, map, IfOk, IsErrOf};
ghost use Rattle.std.specs.Option.{option_map};
ghost use Rattle.std.specs.String.{string_bytes};
ghost use Rattle.store_core.specs.Objects.{Objects, names_of, object_at};
ghost use Rattle.table_audit.specs.Calls.{ReaderCall, lists, reads, told_by_reader};

use store_core::{Store, StoreFault};

/// The objects of a store, as far as they are read: names with bytes. What a call tells of them is promised where the
/// value is steady: a store always is, a folder on a disk never.
///
/// Each store is a reader. A type of another crate that is no store may be one too.
pub trait ObjectReader {
    /// The objects that stand.
    ghost objects: { Self → Objects };

    /// What the calls tell is so, and nothing changes.
    ghost is_steady: { Self → Type 0 };

    /// No call is lost.
    ghost is_reliable: { Self → Type 0 };

    /// What one call may make of a reader, with what it told. Code that is proved for any reader has to say by it which
    /// calls it makes; a reader that doesn't care takes any two values.
    ghost makes: { Self → ReaderCall → Self → Type 0 };

    /// All names that stand, in the order of their bytes, each once.
    fn names(&mut self) -> Result<Vec<String>, StoreFault>
        ensures names { is_steady self.old → IfOk result (λ names. map string_bytes names.items ≡ names_of (objects self.old)) }
        ensures untouched { is_steady self.old → objects self.new ≡ objects self.old }
        ensures steady { is_steady self.old → is_steady self.new }
        ensures called { makes self.old (lists (told_by_reader (λ names. map string_bytes names.items) result)) self.new }
        ensures never_lost { is_reliable self.old → IsErrOf result StoreFault.Lost → ⊥ }
        ensures stays_reliable { is_reliable self.old → is_reliable self.new };

    /// The bytes that stand under a name, or `None` where the name is absent.
    fn read(&mut self, name: &str) -> Result<Option<Vec<u8>>, StoreFault>
        ensures object { is_steady self.old → IfOk result (λ found. option_map (λ bytes. bytes.items) found ≡ object_at (objects self.old) name.now) }
        ensures untouched { is_steady self.old → objects self.new ≡ objects self.old }
        ensures steady { is_steady self.old → is_steady self.new }
        ensures called { makes self.old (reads name.now (told_by_reader (option_map (λ bytes. bytes.items)) result)) self.new }
        ensures never_lost { is_reliable self.old → IsErrOf result StoreFault.Lost → ⊥ }
        ensures stays_reliable { is_reliable self.old → is_reliable self.new };
}

impl<S: Store> ObjectReader for S {
    ghost objects = { λ store. S.objects store };

    ghost is_steady = { λ store. Unit {0} };

    ghost is_reliable = { λ store. S.is_reliable store };

    ghost makes = { λ old _ new. S.makes old new };

    fn names(&mut self) -> Result<Vec<String>, StoreFault> {
        Ok(self.list()?.to_vec()?)
    }

    fn read(&mut self, name: &str) -> Result<Option<Vec<u8>>, StoreFault> {
        self.get(name)
    }
}
