//! Laws of which commits may be put next, where the versions before them stand.

ghost use Rattle.std.specs.Prelude.{◌≡◌, ◌≢◌, ◌≤◌, ℕ, suc, List, [], ◌∷◌, length, map, false, Some};
ghost use Rattle.std.specs.List.{AllByRecursion};
ghost use Rattle.store_core.specs.Objects.{Objects, object_at};
ghost use Rattle.delta_actions.specs.Action.{Action};
ghost use Rattle.delta_actions.specs.Commit.{IsCommit};
ghost use Rattle.store_core.specs.Names.{commit_name, greatest_version};
ghost use Rattle.table_model.specs.Appends.{appended};
ghost use Rattle.table_model.specs.Lawful.{AreDifferent, IsLawful};
ghost use Rattle.table_model.specs.Table.{Batch, Entry, creation, group, close, is_stream_closed};
ghost use Rattle.table_model.specs.declared.table.AppendAnswer.TheVariants.{Committed};
ghost use Rattle.table_store.specs.Commits.{IsCommitOf};
ghost use Rattle.table_store.specs.Conflicts.{Candidate, Conflicts, ReadsItsOwn};
ghost use Rattle.table_store.specs.Holds.{FileStands, HoldsFirst, IsLawfulStore};
ghost use Rattle.table_store.specs.Schema.{Schema};
ghost use Rattle.table_store.specs.Sound.{IsAdmissible};
ghost use Rattle.log_laws.specs.Sound.{IsSoundStore};

/// A store of nothing is sound.
pub fn an_empty_store_is_sound()
    ensures { IsSoundStore [] }
{}

/// A creation is admissible as the first commit of every store.
pub fn a_creation_is_admissible()
    ensures { (objects : Objects) (schema : Schema) (bytes : List ℕ) → IsCommitOf schema creation bytes → IsAdmissible objects 0 bytes }
{}

/// Behind the versions of a lawful table, of which the creation is one, these commits are admissible at the version
/// that comes next, if a commit can have it: that of a batch which the table takes, whose file stands, that of several
/// such batches of different applications, and that of a stream's close which isn't closed. The name of the version may
/// be taken meanwhile, and versions behind it too.
pub fn the_next_entry_is_admissible()
    ensures batch { (objects : Objects) (schema : Schema) (first : Entry) (entries : List Entry) (b : Batch) (bytes : List ℕ) → HoldsFirst objects schema 0 (first ∷ entries) → IsLawful (first ∷ entries)
        → length (first ∷ entries) ≤ greatest_version → appended b (first ∷ entries) ≡ Committed (length (first ∷ entries)) → IsCommitOf schema (group (b ∷ [])) bytes → FileStands objects schema b
        → IsAdmissible objects (length (first ∷ entries)) bytes }
    ensures group { (objects : Objects) (schema : Schema) (first : Entry) (entries : List Entry) (bs : List Batch) (bytes : List ℕ) → HoldsFirst objects schema 0 (first ∷ entries) → IsLawful (first ∷ entries)
        → length (first ∷ entries) ≤ greatest_version → bs ≢ [] → AreDifferent (map (λ b. b.application) bs) → AllByRecursion (λ b. appended b (first ∷ entries) ≡ Committed (length (first ∷ entries))) bs
        → IsCommitOf schema (group bs) bytes → AllByRecursion (FileStands objects schema) bs → IsAdmissible objects (length (first ∷ entries)) bytes }
    ensures closed { (objects : Objects) (schema : Schema) (first : Entry) (entries : List Entry) (application bytes : List ℕ) → HoldsFirst objects schema 0 (first ∷ entries) → IsLawful (first ∷ entries)
        → length (first ∷ entries) ≤ greatest_version → is_stream_closed application (first ∷ entries) ≡ false → IsCommitOf schema (close application) bytes
        → IsAdmissible objects (length (first ∷ entries)) bytes }
{}

/// The rules of conflicts are sound: in a lawful store, where the bytes of a candidate that reads the close of each
/// application that it has a `txn` of may be put at a version, whose commit stands already and doesn't conflict with
/// the candidate, they may be put at the version behind it, if a commit can have it.
pub fn a_candidate_without_conflict_goes_on()
    ensures { (objects : Objects) (version : ℕ) (bytes won : List ℕ) (candidate : Candidate) (winner : List Action) → IsLawfulStore objects → IsAdmissible objects version bytes → IsCommit bytes candidate.actions
        → ReadsItsOwn candidate → object_at objects (commit_name version) ≡ Some won → IsCommit won winner → (Conflicts candidate winner → ⊥) → suc version ≤ greatest_version
        → IsAdmissible objects (suc version) bytes }
{}
