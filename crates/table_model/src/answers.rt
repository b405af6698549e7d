//! Laws of what appends and closes answer: each answer is a fact of the table, and stays one while the table grows.

ghost use Rattle.std.specs.Prelude.{◌≡◌, ℕ, List, [], ◌∷◌, ◌++◌, length, Contains};
ghost use Rattle.table_model.specs.Table.{Batch, Entry, group, close, batches};
ghost use Rattle.table_model.specs.Appends.{appended, with_batch, closing, with_close, TellsAppend, TellsClose};
ghost use Rattle.table_model.specs.Lawful.{Begins, IsLawful};
ghost use Rattle.table_model.specs.declared.table.AppendAnswer.{AppendAnswer};
ghost use Rattle.table_model.specs.declared.table.AppendAnswer.TheVariants.{Committed};
ghost use Rattle.table_model.specs.declared.table.Closing.{Closing};
ghost use Rattle.table_model.specs.declared.table.Closing.TheVariants.{Closed};

/// What an append or a close answers is true of the table that it leaves: the version that is answered tells the batch,
/// or closes the stream; a batch that is there already is told with its number and rows; where the number is stale, the
/// greater number that is answered is told of the application; where the rows differ, this number is told with other
/// rows, or with none; and where the stream was closed its close stands, and each number of the application is below
/// the batch's if the table is lawful.
pub fn answers_are_facts()
    ensures append { (b : Batch) (entries : List Entry) → TellsAppend (appended b entries) b (with_batch (appended b entries) b entries) }
    ensures close { (application : List ℕ) (entries : List Entry) → TellsClose (closing application entries) application (with_close application entries) }
{}

/// What is committed is the version behind the last one, and no version before it changes.
pub fn a_commit_is_the_next_version()
    ensures append { (b : Batch) (version : ℕ) (entries : List Entry) → appended b entries ≡ Committed version
        → (version ≡ length entries) × (with_batch (appended b entries) b entries ≡ entries ++ group (b ∷ []) ∷ []) }
    ensures close { (application : List ℕ) (version : ℕ) (entries : List Entry) → closing application entries ≡ Closed version
        → (version ≡ length entries) × (with_close application entries ≡ entries ++ close application ∷ []) }
{}

/// What was told once stays true in each table that the table grows to, and a batch that stands stays.
pub fn facts_last()
    ensures append { (answer : AppendAnswer) (b : Batch) (entries more : List Entry) → TellsAppend answer b entries → TellsAppend answer b (entries ++ more) }
    ensures close { (answer : Closing) (application : List ℕ) (entries more : List Entry) → TellsClose answer application entries → TellsClose answer application (entries ++ more) }
    ensures stands { (b : Batch) (entries more : List Entry) → Contains (batches entries) b → Contains (batches (entries ++ more)) b }
{}

/// What a lawful table grew from is lawful, where it has begun.
pub fn a_lawful_table_was_lawful()
    ensures { (entries more : List Entry) → IsLawful (entries ++ more) → Begins entries → IsLawful entries }
{}
