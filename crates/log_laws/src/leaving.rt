//! Laws of what the log of a sound store leaves: what its table tells, whether it is read whole or from a checkpoint
//! on.

ghost use Rattle.std.specs.Prelude.{◌≡◌, ◌↔◌, ℕ, suc, ◌+◌, List, [], ◌∷◌, ◌++◌, length, map, Bool, false, option_map, Contains, Some, Ok, Err, IsUtf8};
ghost use Rattle.store_core.specs.Objects.{Objects};
ghost use Rattle.delta_actions.specs.Action.{Action, AddAction, add};
ghost use Rattle.delta_actions.specs.Commit.{IsCommit};
ghost use Rattle.delta_replay.specs.Closes as logs;
ghost use Rattle.delta_replay.specs.Keys.{Key, at, file_of, last_number};
ghost use Rattle.delta_replay.specs.Support.{readable, writable};
ghost use Rattle.table_log.specs.Counts.{commit_count};
ghost use Rattle.table_log.specs.Restoring.{IsSoundCheckpoint, replayed};
ghost use Rattle.table_log.specs.Versions.{commits_in, log_of, versions_from};
ghost use Rattle.table_model.specs.Lawful.{IsLawful};
ghost use Rattle.table_model.specs.Live.{live};
ghost use Rattle.table_model.specs.Table.{Entry, File, is_stream_closed, last_told};
ghost use Rattle.table_store.specs.Holds.{GivenStands, Holds, HoldsFirst};
ghost use Rattle.table_store.specs.Logs.{IsLog};
ghost use Rattle.table_store.specs.Schema.{Schema, path_name};
ghost use Rattle.log_laws.specs.Sound.{IsSoundStore};

/// The log of a sound store is read: it has as many versions as the table has entries, the commits that are read are
/// those that stand, and none is refused, unless the log has none.
pub fn a_sound_log_is_read()
    ensures count { (objects : Objects) (schema : Schema) (entries : List Entry) → IsSoundStore objects → Holds objects schema entries → commit_count objects ≡ length entries }
    ensures read { (objects : Objects) (commits : List (List Action)) → IsSoundStore objects → log_of objects ≡ Ok commits → IsLog objects commits }
    ensures whole { (objects : Objects) (first : List Action) (commits : List (List Action)) → IsSoundStore objects → IsLog objects (first ∷ commits)
        → log_of objects ≡ Ok (first ∷ commits) }
    ensures empty { (objects : Objects) → IsSoundStore objects → IsLog objects [] → log_of objects ≡ Err 0 }
{}

/// What a log leaves is what the table tells that the store holds: the number that an application has come to is that
/// told last of it, and its stream is closed where the table has it closed (of applications whose ids are text; for
/// any other, a stream that the log leaves open is open). Files are left under just the names of those that the table's
/// entries leave, and under these stand files of their rows. In a sound store the schema by which the table is read is
/// the table's, and so is the one by which it is written, where it is.
pub fn a_sound_log_leaves_its_table()
    ensures number { (objects : Objects) (schema : Schema) (entries : List Entry) (commits : List (List Action)) (application : List ℕ) → Holds objects schema entries → IsLog objects commits
        → last_number application commits ≡ option_map (λ t. t.number) (last_told application entries) }
    ensures closed { (objects : Objects) (schema : Schema) (entries : List Entry) (commits : List (List Action)) (application : List ℕ) → IsUtf8 application → Holds objects schema entries → IsLog objects commits
        → logs.is_closed application commits ≡ is_stream_closed application entries }
    ensures still_open { (objects : Objects) (schema : Schema) (entries : List Entry) (commits : List (List Action)) (application : List ℕ) → Holds objects schema entries → IsLog objects commits
        → logs.is_closed application commits ≡ false → is_stream_closed application entries ≡ false }
    ensures files { (objects : Objects) (schema : Schema) (entries : List Entry) (commits : List (List Action)) (name : List ℕ) → Holds objects schema entries → IsLog objects commits
        → ((a : AddAction) × (at (file_of name) commits ≡ Some (add a))) ↔ Contains (map (λ f. path_name f.path) (live entries)) name }
    ensures files_stand { (objects : Objects) (schema : Schema) (entries : List Entry) (f : File) → Holds objects schema entries → Contains (live entries) f → GivenStands objects schema f }
    ensures read { (objects : Objects) (schema : Schema) (entries : List Entry) (first : List Action) (commits : List (List Action)) → IsSoundStore objects → Holds objects schema entries → IsLog objects (first ∷ commits)
        → readable (first ∷ commits) ≡ Ok schema }
    ensures written { (objects : Objects) (schema found : Schema) (entries : List Entry) (commits : List (List Action)) → IsSoundStore objects → Holds objects schema entries → IsLog objects commits
        → writable commits ≡ Ok found → found ≡ schema }
{}

/// The first commits of a log leave what the table tells that has the first entries alone: numbers, closed streams, files
/// and its schema. So it is of what was read of a log that others go on to write. In a sound store the first entries of its
/// table stand, and are a lawful table.
pub fn the_first_commits_leave_the_first_entries()
    ensures stand { (objects : Objects) (schema : Schema) (entries later : List Entry) → IsSoundStore objects → Holds objects schema (entries ++ later) → HoldsFirst objects schema 0 entries × IsLawful entries }
    ensures number { (objects : Objects) (schema : Schema) (entries : List Entry) (commits : List (List Action)) (application : List ℕ) → HoldsFirst objects schema 0 entries
        → commits_in 0 (versions_from (length entries) 0 objects) ≡ Ok commits → last_number application commits ≡ option_map (λ t. t.number) (last_told application entries) }
    ensures closed { (objects : Objects) (schema : Schema) (entries : List Entry) (commits : List (List Action)) (application : List ℕ) → IsUtf8 application → HoldsFirst objects schema 0 entries
        → commits_in 0 (versions_from (length entries) 0 objects) ≡ Ok commits → logs.is_closed application commits ≡ is_stream_closed application entries }
    ensures still_open { (objects : Objects) (schema : Schema) (entries : List Entry) (commits : List (List Action)) (application : List ℕ) → HoldsFirst objects schema 0 entries
        → commits_in 0 (versions_from (length entries) 0 objects) ≡ Ok commits → logs.is_closed application commits ≡ false → is_stream_closed application entries ≡ false }
    ensures files { (objects : Objects) (schema : Schema) (entries : List Entry) (commits : List (List Action)) (name : List ℕ) → HoldsFirst objects schema 0 entries
        → commits_in 0 (versions_from (length entries) 0 objects) ≡ Ok commits
        → ((a : AddAction) × (at (file_of name) commits ≡ Some (add a))) ↔ Contains (map (λ f. path_name f.path) (live entries)) name }
    ensures read { (objects : Objects) (schema : Schema) (entries : List Entry) (first : List Action) (commits : List (List Action)) → IsLawful entries → HoldsFirst objects schema 0 entries
        → commits_in 0 (versions_from (length entries) 0 objects) ≡ Ok (first ∷ commits) → readable (first ∷ commits) ≡ Ok schema }
    ensures written { (objects : Objects) (schema found : Schema) (entries : List Entry) (commits : List (List Action)) → IsLawful entries → HoldsFirst objects schema 0 entries
        → commits_in 0 (versions_from (length entries) 0 objects) ≡ Ok commits → writable commits ≡ Ok found → found ≡ schema }
{}

/// From its newest checkpoint on, the log of a sound store leaves for each key what all its commits leave, and is
/// refused where they are. So it leaves what the table tells.
pub fn a_checkpoint_leaves_what_its_log_leaves()
    ensures leaves { (use_checkpoints : Bool) (objects : Objects) (commits : List (List Action)) → IsSoundStore objects → replayed use_checkpoints objects ≡ Ok commits
        → (log : List (List Action)) × (log_of objects ≡ Ok log) × ((key : Key) → at key commits ≡ at key log) }
    ensures refused { (use_checkpoints : Bool) (objects : Objects) (version : ℕ) → IsSoundStore objects → replayed use_checkpoints objects ≡ Err version → log_of objects ≡ Err version }
    ensures number { (use_checkpoints : Bool) (objects : Objects) (schema : Schema) (entries : List Entry) (commits : List (List Action)) (application : List ℕ) → IsSoundStore objects
        → Holds objects schema entries → replayed use_checkpoints objects ≡ Ok commits → last_number application commits ≡ option_map (λ t. t.number) (last_told application entries) }
    ensures closed { (use_checkpoints : Bool) (objects : Objects) (schema : Schema) (entries : List Entry) (commits : List (List Action)) (application : List ℕ) → IsUtf8 application → IsSoundStore objects
        → Holds objects schema entries → replayed use_checkpoints objects ≡ Ok commits → logs.is_closed application commits ≡ is_stream_closed application entries }
    ensures read { (use_checkpoints : Bool) (objects : Objects) (schema : Schema) (entries : List Entry) (commits : List (List Action)) → IsSoundStore objects
        → Holds objects schema entries → replayed use_checkpoints objects ≡ Ok commits → readable commits ≡ Ok schema }
    ensures written { (use_checkpoints : Bool) (objects : Objects) (schema found : Schema) (entries : List Entry) (commits : List (List Action)) → IsSoundStore objects
        → Holds objects schema entries → replayed use_checkpoints objects ≡ Ok commits → writable commits ≡ Ok found → found ≡ schema }
{}

/// A checkpoint of a log's commits up to a version stands for these commits: with the commits of some later versions
/// behind it, or alone, it leaves for each key what all commits up to the last of them leave.
pub fn a_checkpoint_stands_for_the_first_commits()
    ensures { (objects : Objects) (version count : ℕ) (bytes : List ℕ) (actions : List Action) (later : List (List Action)) → IsSoundCheckpoint objects version bytes → IsCommit bytes actions
        → commits_in (suc version) (versions_from count (suc version) objects) ≡ Ok later
        → (commits : List (List Action)) × (commits_in 0 (versions_from (suc version + count) 0 objects) ≡ Ok commits) × ((key : Key) → at key (actions ∷ later) ≡ at key commits) }
{}
