//! What a table's folder is to the code above it.
ghost use Rattle.std.specs.Prelude.{◌≡◌, ◌∷◌, ℕ, List, IfOk, OnOk, IsErrOf, map};
ghost use Rattle.std.specs.Option.{option_map};
ghost use Rattle.std.specs.String.{string_bytes};
ghost use Rattle.store_core.specs.Calls.{put_told};
ghost use Rattle.store_core.specs.Objects.{Objects, object_at, names_of, with_object, IsInOrder};
ghost use Rattle.table_folder.specs.Calls.{CountsFailure, FailsAmong, FailsAt, IsFailed, MayHaveMade};
ghost use Rattle.table_folder.specs.Traces.{FolderCall, creates, finds, lists, looks, reads, answer_told};

use crate::FolderFault;
use store_core::Put;

/// The files of a table's folder and of its log's folder: names with bytes, in which a name is made at most once. A
/// name is a plain file name, or `_delta_log/` and a plain file name.
///
/// Of a disk nothing is proved, so what a call tells of the files and leaves of them is promised where the folder is
/// steady. That the count of faults rises in just the calls that fail is promised always. `FolderFault::Memory` stands
/// for memory that ran out, with nothing changed.
pub trait Folder {
    /// The files that stand: names with bytes, in the order of the names' bytes.
    ghost objects: { Self → Objects };

    /// What a folder that can't be listed is told by: its path.
    ghost path: { Self → List ℕ };

    /// How often a call failed. At 2^64 - 1 it stays.
    ghost fault_count: { Self → ℕ };

    /// The folder changes by this value's own calls alone, and they do what they tell.
    ghost is_steady: { Self → Type 0 };

    /// No call fails.
    ghost is_reliable: { Self → Type 0 };

    /// What one call may make of a folder, with what it told. Code that is proved for any folder has to say by it which
    /// calls it makes, on a disk that others write to as well; a folder that doesn't care takes any two values.
    ghost makes: { Self → FolderCall → Self → Type 0 };

    /// All names that stand, in the order of their bytes, each once. Where it fails, the fault tells the folder's path
    /// or a name that stands.
    fn names(&mut self) -> Result<Vec<String>, FolderFault>
        ensures names { is_steady self.old
            → IfOk result (λ names. map string_bytes names.items ≡ names_of (objects self.old)) }
        ensures untouched { is_steady self.old → objects self.new ≡ objects self.old }
        ensures steady { is_steady self.old → is_steady self.new }
        ensures called { makes self.old (lists (answer_told (λ names. map string_bytes names.items) result)) self.new }

        ensures named { is_steady self.old → FailsAmong (path self.old ∷ names_of (objects self.old)) result }
        ensures faults { CountsFailure result (fault_count self.old) (fault_count self.new) }
        ensures never_fails { is_reliable self.old → IsFailed result → ⊥ }
        ensures stays_reliable { is_reliable self.old → is_reliable self.new };

    /// The bytes of the file of that name, which was listed, or `None` where the name is absent.
    fn read(&mut self, name: &str) -> Result<Option<Vec<u8>>, FolderFault>
        ensures object { is_steady self.old → IfOk result (λ found. option_map (λ bytes. bytes.items) found
            ≡ object_at (objects self.old) name.now) }
        ensures untouched { is_steady self.old → objects self.new ≡ objects self.old }
        ensures steady { is_steady self.old → is_steady self.new }
        ensures called { makes self.old (reads name.now (answer_told (option_map (λ bytes. bytes.items)) result)) self.new }

        ensures named { FailsAt name.now result }
        ensures faults { CountsFailure result (fault_count self.old) (fault_count self.new) }
        ensures never_fails { is_reliable self.old → IsFailed result → ⊥ }
        ensures stays_reliable { is_reliable self.old → is_reliable self.new };

    /// The same, also of a name that wasn't listed: that of a version which may have no commit, say.
    fn find(&mut self, name: &str) -> Result<Option<Vec<u8>>, FolderFault>
        ensures object { is_steady self.old → IfOk result (λ found. option_map (λ bytes. bytes.items) found
            ≡ object_at (objects self.old) name.now) }
        ensures untouched { is_steady self.old → objects self.new ≡ objects self.old }
        ensures steady { is_steady self.old → is_steady self.new }
        ensures called { makes self.old (finds name.now (answer_told (option_map (λ bytes. bytes.items)) result)) self.new }

        ensures named { FailsAt name.now result }
        ensures faults { CountsFailure result (fault_count self.old) (fault_count self.new) }
        ensures never_fails { is_reliable self.old → IsFailed result → ⊥ }
        ensures stays_reliable { is_reliable self.old → is_reliable self.new };

    /// Makes a file with these bytes, unless the name stands: then nothing changes. A create that fails leaves the file
    /// with all its bytes, or nothing changed.
    fn create(&mut self, name: &str, bytes: Vec<u8>) -> Result<Put, FolderFault>
        ensures told { is_steady self.old
            → IfOk result (λ put. put ≡ put_told (object_at (objects self.old) name.now)) }
        ensures made { is_steady self.old
            → OnOk result (objects self.new ≡ with_object (objects self.old) name.now bytes.items) }
        ensures failed { is_steady self.old → IsFailed result
            → MayHaveMade name.now bytes.items (objects self.old) (objects self.new) }
        ensures memory { is_steady self.old → IsErrOf result FolderFault.Memory
            → objects self.new ≡ objects self.old }
        ensures steady { is_steady self.old → is_steady self.new }
        ensures called { makes self.old (creates name.now bytes.items (answer_told (λ put. put) result)) self.new }

        ensures named { FailsAt name.now result }
        ensures faults { CountsFailure result (fault_count self.old) (fault_count self.new) }
        ensures never_fails { is_reliable self.old → IsFailed result → ⊥ }
        ensures stays_reliable { is_reliable self.old → is_reliable self.new };

    /// The names of files that killed runs have left while they wrote: `.new-N`, alone or behind `_delta_log/`, in the
    /// order of their bytes. They are no part of the table. Of which there are nothing is claimed.
    fn leftovers(&mut self) -> Result<Vec<String>, FolderFault>
        ensures untouched { is_steady self.old → objects self.new ≡ objects self.old }
        ensures steady { is_steady self.old → is_steady self.new }
        ensures called { makes self.old looks self.new }

        ensures named { is_steady self.old → FailsAmong (path self.old ∷ names_of (objects self.old)) result }
        ensures faults { CountsFailure result (fault_count self.old) (fault_count self.new) }
        ensures never_fails { is_reliable self.old → IsFailed result → ⊥ }
        ensures stays_reliable { is_reliable self.old → is_reliable self.new };

    /// How often a call failed. At 2^64 - 1 it stays.
    fn faults(&self) -> u64
        ensures { result ≡ fault_count self.now };

    /// Names strictly rise by their bytes, in any folder.
    ghost in_order: { (folder : Self) → IsInOrder (objects folder) };
}
