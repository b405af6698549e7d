//! Laws on what a line of a script does to the objects of a table, each a function with an empty body whose contract is
//! the law: a line looks at the log and at certain data files, so that others needn't be loaded, and it leaves a sound
//! table sound, however much of what it puts is saved, where it puts no other tool's commit.
#![tactic(auto)]

mod kept;

ghost use Rattle.std.specs.Prelude.{◌≡◌, ℕ, Bool, false, List, Ok};
ghost use Rattle.serde_json.specs.Data.{Items};
ghost use Rattle.store_core.specs.Objects.{Objects, IsInOrder, names_of};
ghost use Rattle.table_log.specs.Restoring.{RestoresWell};
ghost use Rattle.table_folder.specs.Copies.{HasSavedFront, to_save};
ghost use Rattle.table_folder.specs.Loads.{loaded};
ghost use Rattle.commit_core.specs.SoundStores.{IsSoundStore};
ghost use Rattle.sink_core.specs.Appending.{PutsWell, appended_by, append_plan, stands, with_append, with_file_alone};
ghost use Rattle.sink_core.specs.declared.sink_state.SinkOutcome.TheVariants.{Already, Committed};
ghost use Rattle.lake_script.specs.Growth.{MayPut};
ghost use Rattle.script_lines.specs.Lines.{Statement, asks};
ghost use Rattle.lake_script.specs.Runs.{Executes};
ghost use Rattle.lake_script.specs.Told.{IsPutHere, reply_to_statement};
ghost use Rattle.job_laws.specs.Bytes.{LooksAtBytes};
ghost use Rattle.job_laws.specs.Looking.{LooksWithin};
ghost use Rattle.job_laws.specs.Saved.{with_added};

pub use kept::{
    a_kept_table_is_told, a_sound_store_without_other_files_keeps_its_table,
    reads_by_texts_hand_out_the_log,
};

/// Data files that a line doesn't look at don't matter to it: over the log and the files that it may look at it is told
/// what it is told over all objects, and what it puts there is what it puts here.
pub fn what_isnt_looked_at_doesnt_matter()
    ensures reply { (objects : Objects) (statement : Statement) (files : List (List ℕ)) (printed : List ℕ) → LooksWithin objects statement files
        → reply_to_statement (loaded files objects) statement printed ≡ reply_to_statement objects statement printed }
    ensures executes { (objects after : Objects) (statement : Statement) (files : List (List ℕ)) (reply : List ℕ) → IsInOrder objects → LooksWithin objects statement files
        → Executes (loaded files objects) statement reply after → Executes objects statement reply (with_added (loaded files objects) after objects) }
    // Whatever front of what was put is saved beside all objects, the line may have put it.
    ensures saved { (objects after new : Objects) (statement : Statement) (files : List (List ℕ)) → IsInOrder objects → LooksWithin objects statement files
        → MayPut (loaded files objects) statement after → HasSavedFront after (to_save (names_of (loaded files objects)) (names_of after)) objects new
        → MayPut objects statement new }
    // Checkpoints that are sound are so without the other files.
    ensures restores { (objects : Objects) (files : List (List ℕ)) (use_checkpoints : Bool) → RestoresWell use_checkpoints objects → RestoresWell use_checkpoints (loaded files objects) }
{}

/// An append that is told as committed stands: over what it leaves the same append, at whatever moment, is told that
/// its batch stands, and puts nothing; and where its data file alone was saved, the same append is told as committed.
/// It is asked that what the first one puts is well made, as `table_jobs::run` says of its own.
pub fn an_append_again_stands()
    ensures told { (objects : Objects) (application : List ℕ) (number at later version : ℕ) (items : Items) → PutsWell application number at (append_plan false objects application number at items)
        → appended_by false objects application number at items ≡ Ok (Committed version)
        → appended_by false (with_append objects (append_plan false objects application number at items)) application number later items ≡ Ok (Already number) }
    ensures alone { (objects : Objects) (application : List ℕ) (number at version : ℕ) (items : Items) → IsInOrder objects → PutsWell application number at (append_plan false objects application number at items)
        → appended_by false objects application number at items ≡ Ok (Committed version)
        → appended_by false (with_file_alone objects (append_plan false objects application number at items)) application number at items ≡ Ok (Committed version) }
    ensures puts_nothing { (objects : Objects) (application : List ℕ) (number at later version : ℕ) (items : Items) → PutsWell application number at (append_plan false objects application number at items)
        → appended_by false objects application number at items ≡ Ok (Committed version)
        → append_plan false (with_append objects (append_plan false objects application number at items)) application number later items ≡ Ok stands }
{}

/// Whatever this program puts for a line leaves a sound store sound, however far it comes with it, where the line puts
/// no other tool's commit. Behind a log of all versions that there can be an append puts its file alone. The data file
/// that it looks at is of bytes: that its numbers are below 256 isn't known of objects in general.
pub fn a_line_keeps_a_store_sound()
    ensures { (objects after : Objects) (statement : Statement) → LooksAtBytes objects statement → IsPutHere (asks statement) → IsSoundStore objects
        → MayPut objects statement after → IsSoundStore after }
{}
