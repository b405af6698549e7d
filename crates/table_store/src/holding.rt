//! Laws of stores and the tables that they hold, each a function with an empty body whose contract is the law.

ghost use Rattle.std.specs.Prelude.{◌≡◌, ◌≢◌, ◌<◌, ◌^◌, ℕ, suc, List, [], ◌∷◌, ◌++◌, length, true, IsUtf8};
ghost use Rattle.store_core.specs.Objects.{Objects, with_object, HasObjectsOf};
ghost use Rattle.delta_actions.specs.Action as actions;
ghost use Rattle.store_core.specs.Names.{commit_name};
ghost use Rattle.delta_actions.specs.Names.{data_file_name};
ghost use Rattle.table_store.specs.Schema.{Schema};
ghost use Rattle.table_store.specs.Commits.{IsCommitOf};
ghost use Rattle.table_store.specs.Holds.{EndsAt, Holds, FilesStand, IsFree, IsFreeIn, IsLawfulStore, TellsOf};
ghost use Rattle.table_model.specs.Lawful.{Begins, IsLawful};
ghost use Rattle.table_store.specs.Logs.{IsLog, AreBatches, AreRows};
ghost use Rattle.table_store.specs.LawfulLogs.{HasLawfulLog};
ghost use Rattle.table_store.specs.Sound.{IsAdmissible, IsSound};
ghost use Rattle.row_core.specs.Rows.{Row};
ghost use Rattle.table_model.specs.Reads.{is_offset, position};
ghost use Rattle.table_model.specs.Table.{Batch, Entry, batches, rows};
ghost use Rattle.table_model.specs.declared.reading.Offset.{Offset};

/// A store holds one table at most that begins with its creation: one log of entries, and one schema. (Without a
/// creation no entry tells the schema, and a file may be one of several tables, whose columns stand in another order.)
pub fn one_table()
    ensures log { (objects : Objects) (schema other : Schema) (entries others : List Entry) → Begins entries → Holds objects schema entries → Holds objects other others → entries ≡ others }
    ensures schema { (objects : Objects) (schema other : Schema) (first : Entry) (entries others : List Entry) → Begins (first ∷ entries) → Holds objects schema (first ∷ entries) → Holds objects other others
        → schema ≡ other }
{}

/// Whatever table a lawful store holds is lawful: no batch stands twice, and each application's numbers rise.
pub fn a_lawful_store_holds_lawful_tables()
    ensures { (objects : Objects) (schema : Schema) (entries : List Entry) → IsLawfulStore objects → Holds objects schema entries → IsLawful entries }
{}

/// Where a store holds a table, and another one has all its objects and maybe more and holds a table too, the first
/// table is a front of the second, where it begins with its creation: the same entries come first, and the schema is
/// the same. Each offset that a read of the first can begin at is one of the second, at the same position.
pub fn a_grown_store_holds_a_grown_table()
    ensures front { (objects more : Objects) (schema other : Schema) (entries others : List Entry) → HasObjectsOf objects more → Begins entries → Holds objects schema entries → Holds more other others
        → (later : List Entry) × (others ≡ entries ++ later) }
    ensures schema { (objects more : Objects) (schema other : Schema) (first : Entry) (entries others : List Entry) → HasObjectsOf objects more → Begins (first ∷ entries)
        → Holds objects schema (first ∷ entries) → Holds more other others → schema ≡ other }
    ensures offsets { (objects more : Objects) (schema other : Schema) (entries others : List Entry) (offset : Offset) → HasObjectsOf objects more → Begins entries → Holds objects schema entries → Holds more other others
        → is_offset offset entries ≡ true → (is_offset offset others ≡ true) × (position offset others ≡ position offset entries) }
{}

/// Where the commit of an entry is put at the next version, which is one that a commit can have, its files stand, and
/// no commit stands at the version behind it, if there is one, the store holds the table with one entry more.
pub fn a_commit_is_one_entry_more()
    ensures { (objects : Objects) (schema : Schema) (entries : List Entry) (entry : Entry) (bytes : List ℕ) → Holds objects schema entries → IsCommitOf schema entry bytes → FilesStand objects schema entry
        → TellsOf objects schema (length entries) entry → EndsAt objects (suc (length entries))
        → Holds (with_object objects (commit_name (length entries)) bytes) schema (entries ++ entry ∷ []) }
{}

/// A data file that is put leaves the table as it was, where no entry lacks its name.
pub fn a_data_file_changes_no_table()
    ensures { (objects : Objects) (schema : Schema) (entries : List Entry) (application bytes : List ℕ) (number : ℕ) → IsFree entries (data_file_name application number) → Holds objects schema entries
        → Holds (with_object objects (data_file_name application number) bytes) schema entries }
{}

/// No two objects of a table share a name: each version has a commit of its own, each batch a data file of its own,
/// and no commit is named as a data file. (That two versions or two numbers are one is said where one of them fits 64
/// bits; the other may be any number. Applications' ids are text.)
pub fn names_stand_apart()
    ensures commits { (version other : ℕ) → version < 2 ^ 64 → commit_name version ≡ commit_name other → version ≡ other }
    ensures files { (application second : List ℕ) (number other : ℕ) → IsUtf8 application → IsUtf8 second → number < 2 ^ 64 → data_file_name application number ≡ data_file_name second other
        → (application ≡ second) × (number ≡ other) }
    ensures commits_from_files { (version : ℕ) (application : List ℕ) (number : ℕ) → commit_name version ≢ data_file_name application number }
{}

/// The batches and the rows of the table that a store holds are those that the store's log tells of: the batch of each
/// number that a commit has, with the rows of the file named for it, and the rows of the new files that commits have.
/// The log tells of no others.
pub fn a_held_table_is_its_log()
    ensures log { (objects : Objects) (schema : Schema) (entries : List Entry) → Holds objects schema entries
        → (log : List (List actions.Action)) × IsLog objects log × AreBatches objects schema log (batches entries) × AreRows objects schema log (rows entries) }
    ensures batches { (objects : Objects) (schema : Schema) (entries : List Entry) (log : List (List actions.Action)) (bs : List Batch) → Holds objects schema entries → IsLog objects log → AreBatches objects schema log bs
        → bs ≡ batches entries }
    ensures rows { (objects : Objects) (schema : Schema) (entries : List Entry) (log : List (List actions.Action)) (rs : List Row) → Holds objects schema entries → IsLog objects log → AreRows objects schema log rs
        → rs ≡ rows entries }
{}

/// In the table that a lawful store holds no batch stands twice, and each application's numbers rise: of two batches of
/// one application, the later one has the greater number.
pub fn a_lawful_store_has_each_batch_once()
    ensures { (objects : Objects) (schema : Schema) (entries : List Entry) (before between after : List Batch) (b c : Batch) → IsLawfulStore objects → Holds objects schema entries
        → batches entries ≡ before ++ (b ∷ between) ++ (c ∷ after) → b.application ≡ c.application → b.number < c.number }
{}

/// A store is lawful exactly where its log is lawful in terms of commits and their actions: it is empty or begins with
/// its creation, each later commit is a group of batches of different applications or the close of one stream, the
/// file of each batch stands, no batch stands twice, each application's numbers rise, and none stands in or behind a
/// close of its stream.
pub fn a_store_is_lawful_where_its_log_is()
    ensures log { (objects : Objects) → IsLawfulStore objects → HasLawfulLog objects }
    ensures store { (objects : Objects) → HasLawfulLog objects → IsLawfulStore objects }
{}

/// A commit that is admissible at a version leaves a sound store sound, whether its name was taken before or not: a
/// name that is taken keeps its bytes.
pub fn an_admissible_commit_keeps_a_store_sound()
    ensures { (objects : Objects) (version : ℕ) (bytes : List ℕ) → IsSound objects → IsAdmissible objects version bytes → IsSound (with_object objects (commit_name version) bytes) }
{}

/// So does a data file under a name that no entry lacks, whatever its bytes: a name that is taken keeps those that it has.
pub fn a_data_file_keeps_a_store_sound()
    ensures { (objects : Objects) (application bytes : List ℕ) (number : ℕ) → IsFreeIn objects (data_file_name application number) → IsSound objects → IsSound (with_object objects (data_file_name application number) bytes) }
{}
