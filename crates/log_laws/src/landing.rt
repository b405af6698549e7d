//! Laws of what may be put: it leaves a sound store sound, and it stays what may be put while the store grows.

ghost use Rattle.std.specs.Prelude.{◌≡◌, ℕ, List, [], ◌∷◌, ◌++◌, None, Some};
ghost use Rattle.std.specs.List.{AllByRecursion};
ghost use Rattle.table_store.specs.Holds.{IsFreeIn, Lacks};
ghost use Rattle.store_core.specs.Objects.{Objects, with_object, HasObjectsOf};
ghost use Rattle.store_core.specs.Names.{commit_name, commit_version};
ghost use Rattle.delta_actions.specs.Names.{data_file_name};
ghost use Rattle.table_log.specs.Restoring.{IsSoundCheckpoint, checkpoint_version};
ghost use Rattle.table_store.specs.Sound.{IsAdmissible};
ghost use Rattle.log_laws.specs.Sound.{IsSoundStore};

/// A commit that is admissible at a version leaves a sound store sound, its checkpoints too, whether its name was free
/// or taken: a name that is taken keeps its bytes. So it does of each sound store that this one grew to meanwhile, as
/// where a put lands late, if what the entries up to the commit's own lack isn't there now.
pub fn an_admissible_commit_lands()
    ensures now { (objects : Objects) (version : ℕ) (bytes : List ℕ) → IsSoundStore objects → IsAdmissible objects version bytes
        → IsSoundStore (with_object objects (commit_name version) bytes) }
    ensures later { (objects more : Objects) (version : ℕ) (bytes : List ℕ) → HasObjectsOf objects more → IsSoundStore more
        → (new : IsAdmissible objects version bytes) → AllByRecursion (Lacks more) (new.entries ++ new.entry ∷ []) → IsSoundStore (with_object more (commit_name version) bytes) }
{}

/// A commit that is admissible at a version of a store is so of each store that has all its objects and maybe more,
/// also where the version's name is taken there, if what the entries up to the commit's own lack isn't there.
pub fn an_admissible_commit_stays_admissible()
    ensures { (objects more : Objects) (version : ℕ) (bytes : List ℕ) → HasObjectsOf objects more
        → (new : IsAdmissible objects version bytes) → AllByRecursion (Lacks more) (new.entries ++ new.entry ∷ []) → IsAdmissible more version bytes }
{}

/// A data file under a name that no entry lacks leaves a sound store sound, whatever its bytes: a name that is taken
/// keeps those that it has. So does whatever else has such a name, which is neither a commit's nor a checkpoint's.
pub fn a_data_file_lands()
    ensures file { (objects : Objects) (application bytes : List ℕ) (number : ℕ) → IsFreeIn objects (data_file_name application number) → IsSoundStore objects
        → IsSoundStore (with_object objects (data_file_name application number) bytes) }
    ensures other { (objects : Objects) (name bytes : List ℕ) → commit_version name ≡ None → checkpoint_version name ≡ None → IsFreeIn objects name → IsSoundStore objects
        → IsSoundStore (with_object objects name bytes) }
{}

/// A checkpoint of a version, which is one of the log's commits up to it, leaves a sound store sound under each name
/// that a checkpoint of this version may have, whether it is free or taken. So it does of each sound store that this
/// one grew to meanwhile.
pub fn a_sound_checkpoint_lands()
    ensures now { (objects : Objects) (name bytes : List ℕ) (version : ℕ) → checkpoint_version name ≡ Some version → IsSoundStore objects → IsSoundCheckpoint objects version bytes
        → IsSoundStore (with_object objects name bytes) }
    ensures later { (objects more : Objects) (name bytes : List ℕ) (version : ℕ) → checkpoint_version name ≡ Some version → HasObjectsOf objects more → IsSoundStore more → IsSoundCheckpoint objects version bytes
        → IsSoundStore (with_object more name bytes) }
{}

/// Bytes that are a checkpoint of a log's commits up to a version are one in each store that has all objects and maybe
/// more, whatever these are.
pub fn a_sound_checkpoint_stays_sound()
    ensures { (objects more : Objects) (version : ℕ) (bytes : List ℕ) → HasObjectsOf objects more → IsSoundCheckpoint objects version bytes → IsSoundCheckpoint more version bytes }
{}
