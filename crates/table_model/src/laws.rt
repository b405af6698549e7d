//! Laws of the plain table, each a function with an empty body whose contract is the law.

ghost use Rattle.std.specs.Prelude.{◌≡◌, ◌≢◌, ◌↔◌, ◌<◌, ◌≤◌, ◌-◌, ◌⊎◌, ℕ, List, [], ◌∷◌, ◌++◌, length, map, take, drop, true, Some};
ghost use Rattle.std.specs.List.{AllByRecursion, flat_map};
ghost use Rattle.row_core.specs.Rows.{Row};
ghost use Rattle.table_model.specs.Table.{Batch, Entry, creation, group, batches, told_of, last_told, rows};
ghost use Rattle.table_model.specs.Appends.{appended, with_batch, with_close};
ghost use Rattle.table_model.specs.Reads.{read, handed, position, is_offset, end};
ghost use Rattle.table_model.specs.Resumed.{reads_on, growth, beginning};
ghost use Rattle.table_model.specs.Lawful.{AreDifferent, Follows, IsLater, IsLawful, Suits};
ghost use Rattle.table_model.specs.Live.{SameCounts, rows_of_files, live, newest_from};
ghost use Rattle.table_model.specs.declared.reading.Offset.{Offset};
ghost use Rattle.table_model.specs.declared.table.AppendAnswer.TheVariants.{Already, Committed};

/// A table that was just created is lawful.
pub fn a_new_table_is_lawful()
    ensures { IsLawful (creation ∷ []) }
{}

/// An append leaves a lawful table lawful, whatever it answers.
pub fn appends_keep_lawful()
    ensures { (b : Batch) (first : Entry) (entries : List Entry) → IsLawful (first ∷ entries) → IsLawful (with_batch (appended b (first ∷ entries)) b (first ∷ entries)) }
{}

/// So does a close.
pub fn closes_keep_lawful()
    ensures { (application : List ℕ) (first : Entry) (entries : List Entry) → IsLawful (first ∷ entries) → IsLawful (with_close application (first ∷ entries)) }
{}

/// A later entry that follows may be put behind a lawful table that has a version, of whatever kind it is; and what may
/// be put follows.
pub fn an_entry_that_follows_keeps_lawful()
    ensures enough { (first : Entry) (entries : List Entry) (entry : Entry) → IsLawful (first ∷ entries) → IsLater entry → Follows (first ∷ entries) entry → IsLawful ((first ∷ entries) ++ entry ∷ []) }
    ensures needed { (entries : List Entry) (entry : Entry) → IsLawful (entries ++ entry ∷ []) → Follows entries entry }
{}

/// Batches of different applications, each of which an append commits, follow together as one group.
pub fn new_batches_follow_as_a_group()
    ensures { (entries : List Entry) (bs : List Batch) → IsLawful entries → bs ≢ [] → AreDifferent (map (λ b. b.application) bs) → AllByRecursion (λ b. appended b entries ≡ Committed (length entries)) bs
        → Follows entries (group bs) }
{}

/// The last batch of an application stands already when it is handed in again, whatever others wrote behind it and
/// also behind its stream's close; and then the table stays as it was.
pub fn a_committed_batch_stands_already()
    ensures answer { (b : Batch) (entries : List Entry) → last_told b.application entries ≡ Some (told_of b) → appended b entries ≡ Already b.number }
    ensures left { (b : Batch) (entries : List Entry) → last_told b.application entries ≡ Some (told_of b) → with_batch (appended b entries) b entries ≡ entries }
{}

/// In a lawful table no batch stands twice: of two batches of one application, the later one has the greater number.
pub fn numbers_stand_once()
    ensures { (entries : List Entry) (before between after : List Batch) (b c : Batch) → IsLawful entries → batches entries ≡ before ++ (b ∷ between) ++ (c ∷ after)
        → b.application ≡ c.application → b.number < c.number }
{}

/// A table's rows are those of its batches, one batch behind the other.
pub fn rows_are_those_of_the_batches()
    ensures { (entries : List Entry) → rows entries ≡ flat_map (λ b. b.rows) (batches entries) }
{}

/// The files that a lawful log leaves have the table's rows, each as often; and each entry that suits those before it
/// keeps it so, of whatever log.
pub fn live_files_have_the_rows()
    ensures all { (entries : List Entry) → IsLawful entries → SameCounts (rows_of_files (live entries)) (rows entries) }
    ensures kept { (entries : List Entry) (entry : Entry) → Suits entries entry → SameCounts (rows_of_files (live entries)) (rows entries)
        → SameCounts (rows_of_files (live (entries ++ entry ∷ []))) (rows (entries ++ entry ∷ [])) }
{}

/// No two files that a lawful log leaves have one path, and they are those that the newest action of each path leaves.
pub fn no_path_is_left_twice()
    ensures newest { (entries : List Entry) → IsLawful entries → newest_from [] entries ≡ live entries }
    ensures once { (entries : List Entry) → IsLawful entries → AreDifferent (map (λ f. f.path) (live entries)) }
{}

/// What a read hands out are the table's rows from its offset up to the next one, in the order of the log: `max` of
/// them, or all up to the log's end. The next offset is one that a read can begin at.
pub fn a_read_hands_the_rows_between_its_offsets()
    ensures rows { (max : ℕ) (offset next : Offset) (entries : List Entry) (out : List Row) → read max offset entries ≡ handed out next
        → out ≡ take (position next entries - position offset entries) (drop (position offset entries) (rows entries)) }
    ensures onward { (max : ℕ) (offset next : Offset) (entries : List Entry) (out : List Row) → read max offset entries ≡ handed out next
        → (position offset entries ≤ position next entries) × (is_offset next entries ≡ true) }
    ensures as_many { (max : ℕ) (offset next : Offset) (entries : List Entry) (out : List Row) → read max offset entries ≡ handed out next
        → (length out ≡ max) ⊎ (position next entries ≡ length (rows entries)) }
    ensures at_end { (max : ℕ) (offset next : Offset) (entries : List Entry) (out : List Row) → read max offset entries ≡ handed out next
        → (length out ≡ max) ⊎ (next ≡ end entries) }
    ensures at_most { (max : ℕ) (offset next : Offset) (entries : List Entry) (out : List Row) → read max offset entries ≡ handed out next
        → length out ≤ max }
{}

/// An offset that a read can begin at stays one while the table grows, and as many rows stand before it. So a read that
/// begins there later is never refused.
pub fn offsets_stay()
    ensures stay { (offset : Offset) (entries more : List Entry) → is_offset offset entries ≡ true
        → (is_offset offset (entries ++ more) ≡ true) × (position offset (entries ++ more) ≡ position offset entries) }
    ensures answered { (max : ℕ) (offset : Offset) (entries more : List Entry) → is_offset offset entries ≡ true
        → (out : List Row) × (next : Offset) × (read max offset (entries ++ more) ≡ handed out next) }
{}

/// Reads that each go on where the last one ended, while the table grows between them, hand out together the final
/// table's rows from the first offset up to the one where the next read begins: each once, in the order of the log,
/// whatever the limits of the reads.
pub fn resumed_reads_hand_out_the_log()
    ensures final_table { (reads : List (ℕ × List Entry)) (offset : Offset) (entries : List Entry) → (reads_on reads offset entries).final ≡ entries ++ growth reads }
    ensures rows { (reads : List (ℕ × List Entry)) (offset : Offset) (entries : List Entry) → is_offset offset entries ≡ true
        → let all = reads_on reads offset entries in
        all.out ≡ take (position all.next all.final - position offset entries) (drop (position offset entries) (rows all.final)) }
    ensures onward { (reads : List (ℕ × List Entry)) (offset : Offset) (entries : List Entry) → is_offset offset entries ≡ true
        → let all = reads_on reads offset entries in
        (position offset entries ≤ position all.next all.final) × (is_offset all.next all.final ≡ true) }
    ensures from_beginning { (reads : List (ℕ × List Entry)) (entries : List Entry)
        → let all = reads_on reads beginning entries in
        all.out ≡ take (position all.next all.final) (rows all.final) }
{}

/// Reads from the beginning that come to the end of the log hand out all of its rows, each once and in order,
/// whatever the limits of the reads: where the next read would begin at the log's end, and where the last read
/// handed out fewer rows than its limit.
pub fn reads_to_the_end_hand_out_all()
    ensures at_end { (reads : List (ℕ × List Entry)) (entries : List Entry)
        → let all = reads_on reads beginning entries in
        all.next ≡ end all.final → all.out ≡ rows all.final }
    ensures short { (earlier : List (ℕ × List Entry)) (max : ℕ) (more entries : List Entry) (out : List Row) (next : Offset)
        → let before = reads_on earlier beginning entries in
        let all = reads_on (earlier ++ (max, more) ∷ []) beginning entries in
        read max before.next (before.final ++ more) ≡ handed out next → length out < max → all.out ≡ rows all.final }
{}
