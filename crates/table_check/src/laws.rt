//! Laws of the versions below which a store is sound, and of a walk over its log, each a function with an empty body
//! whose contract is the law.

ghost use Rattle.std.specs.Prelude.{◌≡◌, ◌≤◌, ℕ, suc, List, [], ◌∷◌, ◌++◌, Some, None};
ghost use Rattle.std.specs.Cmp.Lexicographic.{slice_cmp};
ghost use Rattle.std.specs.List.{AllByRecursion};
ghost use Rattle.std.specs.List.Sorted.{IsSorted};
ghost use Rattle.std.specs.Ordering.{nat_cmp};
ghost use Rattle.std.specs.Str.{IsUtf8};
ghost use Rattle.delta_actions.specs.Action.{Action};
ghost use Rattle.delta_actions.specs.Commit.{IsCommit};
ghost use Rattle.store_core.specs.Names.{commit_name, greatest_version};
ghost use Rattle.delta_actions.specs.Printing.{IsPrintable};
ghost use Rattle.delta_checkpoint.specs.Checkpoints.{IsCheckpoint};
ghost use Rattle.log_laws.specs.Sound.{IsSoundStore};
ghost use Rattle.store_core.specs.Objects.{Objects, names_of, object_at};
ghost use Rattle.table_log.specs.Counts.{commit_count};
ghost use Rattle.table_log.specs.Restoring.{IsSoundCheckpoint, checkpoint_version};
ghost use Rattle.table_model.specs.Lawful.{IsLawful, Suits};
ghost use Rattle.table_model.specs.Table.{Batch, Entry, creation, group, close};
ghost use Rattle.table_store.specs.Commits.{IsCommitOf, StandFor, without_commit_info};
ghost use Rattle.table_store.specs.Groups.{numbers};
ghost use Rattle.table_store.specs.Holds.{FilesStand};
ghost use Rattle.table_store.specs.Schema.{Schema};
ghost use Rattle.table_check.specs.Below.{AreCheckpointsSoundBelow, IsFirstUnsound, IsSoundBelow};
ghost use Rattle.table_check.specs.Following.{IsNewToTable, MayFollow};
ghost use Rattle.table_check.specs.Lines.{AreLinesOf};
ghost use Rattle.table_check.specs.Named.{least_named};
ghost use Rattle.table_check.specs.Walked.{IsWalked};

/// A store is sound exactly where it is sound below the version behind the greatest that a commit can have, so below
/// each version. What is sound below a version is so below each lesser one. So a store has one first unsound version at
/// most, and none where it is sound. Where it isn't, it can't be that no version is the first unsound one.
pub fn a_store_is_sound_or_has_one_first_unsound_version()
    ensures whole { (objects : Objects) → IsSoundBelow objects (suc greatest_version) → IsSoundStore objects }
    ensures sound { (objects : Objects) (version : ℕ) → IsSoundStore objects → IsSoundBelow objects version }
    ensures lesser { (objects : Objects) (version other : ℕ) → version ≤ other → IsSoundBelow objects other → IsSoundBelow objects version }
    ensures once { (objects : Objects) (version other : ℕ) → IsFirstUnsound objects version → IsFirstUnsound objects other → version ≡ other }
    ensures broken { (objects : Objects) (version : ℕ) → IsFirstUnsound objects version → IsSoundStore objects → ⊥ }
    ensures first { (objects : Objects) → (IsSoundStore objects → ⊥) → ((version : ℕ) → IsFirstUnsound objects version → ⊥) → ⊥ }
{}

/// Behind a lawful table that was created a group may stand exactly where it has at least one batch, its batches are of
/// different applications, each has a number above its application's last one, and its stream is open. A close always
/// may, and a creation never.
pub fn a_lawful_table_goes_on()
    ensures group { (later : List Entry) (bs : List Batch) → IsLawful (creation ∷ later) → Suits (creation ∷ later) (group bs) → AllByRecursion (IsNewToTable (creation ∷ later)) bs → IsLawful ((creation ∷ later) ++ group bs ∷ []) }
    ensures new { (entries : List Entry) (bs : List Batch) → IsLawful (entries ++ group bs ∷ []) → Suits entries (group bs) × AllByRecursion (IsNewToTable entries) bs }
    ensures closed { (application : List ℕ) (later : List Entry) → IsLawful (creation ∷ later) → IsLawful ((creation ∷ later) ++ close application ∷ []) }
    ensures created { (later : List Entry) → IsLawful ((creation ∷ later) ++ creation ∷ []) → ⊥ }
{}

/// A walk over a log begins with the commit of a creation, and goes on with the next version's commit, of an entry that
/// may follow and whose files stand. The actions of each of these commits can be printed. A checkpoint of the commits
/// that were walked over, of the last one's version, is a sound one. Where the checkpoints of the versions below one
/// are sound, and this version's too, those of the versions below the next are.
pub fn a_walk_goes_on()
    ensures begins { (objects : Objects) (schema : Schema) (bytes : List ℕ) (made : List Action) → object_at objects (commit_name 0) ≡ Some bytes → IsCommitOf schema creation bytes → IsCommit bytes made
        → AllByRecursion IsPrintable made → IsWalked objects schema 1 (made ∷ []) }
    ensures goes_on { (objects : Objects) (schema : Schema) (version : ℕ) (log : List (List Action)) → IsWalked objects schema version log → (entry : Entry) (bytes : List ℕ) (made : List Action)
        → object_at objects (commit_name version) ≡ Some bytes → IsCommitOf schema entry bytes → IsCommit bytes made → AllByRecursion IsPrintable made → FilesStand objects schema entry → MayFollow log entry
        → IsWalked objects schema (suc version) (log ++ made ∷ []) }
    ensures checkpoint { (objects : Objects) (schema : Schema) (version : ℕ) (log : List (List Action)) (bytes : List ℕ) → IsWalked objects schema (suc version) log → IsCheckpoint bytes version log
        → IsSoundCheckpoint objects version bytes }
    ensures checkpoints { (objects : Objects) (version : ℕ) → AreCheckpointsSoundBelow objects version
        → ((name bytes : List ℕ) → checkpoint_version name ≡ Some version → object_at objects name ≡ Some bytes → IsSoundCheckpoint objects version bytes) → AreCheckpointsSoundBelow objects (suc version) }
{}

/// A walk over the versions below one, whose checkpoints are sound too: the store is sound if no object has the name of
/// a commit or checkpoint of that version or a later one, and that version is at most the one behind the greatest that
/// a commit can have. Its log then has as many versions, also where a checkpoint isn't sound. If there are such names,
/// the store is sound below the least of their versions. By a walk alone, the store is sound below a version up to that
/// one if its checkpoints of the versions below this version are.
pub fn a_walk_ends()
    ensures sound { (objects : Objects) (schema : Schema) (version : ℕ) (log : List (List Action)) → IsWalked objects schema version log → AreCheckpointsSoundBelow objects version → version ≤ suc greatest_version
        → least_named version (names_of objects) ≡ None → IsSoundStore objects }
    ensures counted { (objects : Objects) (schema : Schema) (version : ℕ) (log : List (List Action)) → IsWalked objects schema version log → version ≤ suc greatest_version
        → least_named version (names_of objects) ≡ None → commit_count objects ≡ version }
    ensures least { (objects : Objects) (schema : Schema) (version least : ℕ) (log : List (List Action)) → IsWalked objects schema version log → AreCheckpointsSoundBelow objects version
        → least_named version (names_of objects) ≡ Some least → IsSoundBelow objects least }
    ensures below { (objects : Objects) (schema : Schema) (version next : ℕ) (log : List (List Action)) → IsWalked objects schema next log → version ≤ next → AreCheckpointsSoundBelow objects version → IsSoundBelow objects version }
{}

/// Bytes whose actions have the same printed lines as those of a checkpoint, in any order, are a checkpoint of the same
/// version and log.
pub fn a_checkpoint_is_one_in_any_order()
    ensures { (bytes others : List ℕ) (version : ℕ) (log : List (List Action)) (lines : List (List ℕ)) (actions own : List Action) → IsCommit bytes actions → IsCommit others own → AreLinesOf lines actions → AreLinesOf lines own
        → IsCheckpoint others version log → IsCheckpoint bytes version log }
{}

/// Where the first commit is no creation's, the store is unsound at version 0. Behind a walk it is unsound at the next
/// version, where what stands there is no commit, or a commit of no entry that may follow and whose files stand. (The
/// applications of the commit's numbers are text.)
pub fn a_walk_stops()
    ensures created { (objects : Objects) (bytes : List ℕ) → object_at objects (commit_name 0) ≡ Some bytes → ((schema : Schema) → IsCommitOf schema creation bytes → ⊥) → IsSoundBelow objects 1 → ⊥ }
    ensures read { (objects : Objects) (schema : Schema) (version : ℕ) (log : List (List Action)) (bytes : List ℕ) → IsWalked objects schema version log → version ≤ greatest_version → object_at objects (commit_name version) ≡ Some bytes
        → ((made : List Action) → IsCommit bytes made → ⊥) → IsSoundBelow objects (suc version) → ⊥ }
    ensures follows { (objects : Objects) (schema : Schema) (version : ℕ) (log : List (List Action)) (bytes : List ℕ) (made : List Action) → IsWalked objects schema version log → version ≤ greatest_version
        → object_at objects (commit_name version) ≡ Some bytes → IsCommit bytes made → AllByRecursion (λ n. IsUtf8 n.0) (numbers (without_commit_info made))
        → ((entry : Entry) → StandFor schema entry (without_commit_info made) → FilesStand objects schema entry → MayFollow log entry → ⊥) → IsSoundBelow objects (suc version) → ⊥ }
{}

/// Where a version has no commit, a commit or a checkpoint of that version or a later one makes the store unsound: the
/// least version that such a name tells is unsound. Behind a walk so is its last version, where what has the name of a
/// checkpoint of it isn't one of the commits that were walked over.
pub fn a_store_has_no_other_commits_and_checkpoints()
    ensures gap { (objects : Objects) (from least : ℕ) → object_at objects (commit_name from) ≡ None → least_named from (names_of objects) ≡ Some least → IsSoundBelow objects (suc least) → ⊥ }
    ensures checkpoint { (objects : Objects) (schema : Schema) (version : ℕ) (log : List (List Action)) (name bytes : List ℕ) → IsWalked objects schema (suc version) log → checkpoint_version name ≡ Some version
        → object_at objects name ≡ Some bytes → (IsCheckpoint bytes version log → ⊥) → IsSoundBelow objects (suc version) → ⊥ }
{}

/// Each store is sound below version 0, and below the least version that names of commits and checkpoints tell. Where
/// they tell none it is sound, and has no version.
pub fn a_store_begins_soundly()
    ensures zero { (objects : Objects) → IsSoundBelow objects 0 }
    ensures least { (objects : Objects) (least : ℕ) → least_named 0 (names_of objects) ≡ Some least → IsSoundBelow objects least }
    ensures sound { (objects : Objects) → least_named 0 (names_of objects) ≡ None → IsSoundStore objects }
    ensures counted { (objects : Objects) → least_named 0 (names_of objects) ≡ None → commit_count objects ≡ 0 }
{}

/// Two checkpoints of one version and log, whose actions can be printed, have the same printed lines, once these are in
/// the order of their bytes.
pub fn a_checkpoint_has_one_list_of_lines()
    ensures { (bytes others : List ℕ) (version : ℕ) (log : List (List Action)) (lines own_lines : List (List ℕ)) (actions own : List Action) → IsCommit bytes actions → IsCommit others own
        → AllByRecursion IsPrintable actions → AllByRecursion IsPrintable own → AreLinesOf lines actions → AreLinesOf own_lines own → IsSorted (slice_cmp nat_cmp) lines → IsSorted (slice_cmp nat_cmp) own_lines
        → IsCheckpoint bytes version log → IsCheckpoint others version log → lines ≡ own_lines }
{}
