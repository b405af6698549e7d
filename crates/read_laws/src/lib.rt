//! What reads tell of a store that keeps a table, whoever put its commits, and which stores keep one: single reads, and
//! sessions of reads that follow one another while the store grows between and during them. Definitions, and laws, each
//! a function with an empty body whose contract is the law. The product calls no code of this crate.
#![tactic(auto)]

ghost use Rattle.std.specs.Prelude.{◌≡◌, ◌≢◌, ◌≤◌, ℕ, false, List, [], take, Ok};
ghost use Rattle.store_core.specs.Objects.{Objects};
ghost use Rattle.table_model.specs.Reads.{begins_at, position, IsPart, IsPlace, MayEnd};
ghost use Rattle.table_model.specs.Resumed.{beginning};
ghost use Rattle.table_model.specs.Table.{Entry, rows};
ghost use Rattle.table_model.specs.declared.reading.Offset.{Offset};
ghost use Rattle.source_core.specs.TableSchema.{Schema};
ghost use Rattle.source_core.specs.SoundTables.{IsSound};
ghost use Rattle.source_core.specs.SourceSessions.{HasNewFiles};
ghost use Rattle.source_core.specs.Tailing.{ReadRows, read_by};
ghost use Rattle.read_laws.specs.Kept.{KeepsTable};
ghost use Rattle.read_laws.specs.Readable.{HasReadableFiles};
ghost use Rattle.read_laws.specs.Readers.{Follow, IsReadAt, MayTellOfTable, OneRead, limit_of_all, next_of_all, rows_of_all, table_of_all};

/// A read over a store that keeps a table hands out the part of the table from its offset on, up to its limit or the
/// end of the log, where a reader may begin there: so far at each offset.
pub fn a_read_hands_out_a_part()
    ensures { (objects : Objects) (schema : Schema) (entries : List Entry) (max : ℕ) (offset : Offset) (out : ReadRows) → KeepsTable objects schema entries → begins_at entries ≤ offset.version
        → read_by false objects max offset ≡ Ok out → IsPart max offset out.rows out.next entries × MayEnd false max out.rows out.next entries }
{}

/// A sound store with a table keeps it, where each batch's file has at most 64 MiB and 4,194,304 rows, so that what is
/// said of reads over stores that keep a table is said of all sound ones whose files can be read. Whose commits they
/// are doesn't matter.
pub fn a_sound_store_keeps_its_table()
    ensures { (objects : Objects) (sound : IsSound objects) → sound.entries ≢ [] → HasReadableFiles objects sound.entries → KeepsTable objects sound.schema sound.entries }
{}

/// What a read as a session may tell, whose talk shows a store that keeps a table: by the table's schema the part of
/// the table from its offset on, which ends with as many rows as it was to hand out, or at the start of the version
/// behind those that were listed; or that the offset is behind the log, or in no file of its version. From an offset of
/// the table it is refused only where a call was lost or memory ran out.
pub fn what_a_read_may()
    ensures { (schema : Schema) (offset : Offset) (entries : List Entry) (r : OneRead) → begins_at entries ≤ offset.version → IsReadAt schema offset entries r → MayTellOfTable schema r.max offset entries r.end.answer }
{}

/// A store that keeps a table has all files that its commits bring, so that what a read is shown is the store as it was
/// listed (`source_core::what_a_read_is_shown`).
pub fn a_kept_table_has_its_files()
    ensures { (objects : Objects) (schema : Schema) (entries : List Entry) → KeepsTable objects schema entries → (first : ℕ) → HasNewFiles first objects }
{}

/// Reads that follow one another, each from where the one before ended, hand out together the part of the table from
/// the first offset on up to the one where the next read begins: each row once, in the order of the log, whatever their
/// limits are, and whichever of them are refused or lose a call. From the beginning they are the table's first rows.
///
/// Others may put into the store between the reads and between a read's calls. It is asked of each read that its talk
/// shows the store as it stood when its names were listed (`source_core::what_a_read_is_shown` says when it does), and
/// that this one keeps the table of the read before, grown by some entries, with sound checkpoints where it goes by
/// them.
pub fn reads_that_follow_hand_out_the_log()
    ensures part { (schema : Schema) (reads : List OneRead) (offset : Offset) (entries : List Entry) → IsPlace offset entries → Follow schema reads offset entries
        → IsPart (limit_of_all reads) offset (rows_of_all reads) (next_of_all reads offset) (table_of_all reads entries) }
    ensures from_beginning { (schema : Schema) (reads : List OneRead) (entries : List Entry) → Follow schema reads beginning entries
        → rows_of_all reads ≡ take (position (next_of_all reads beginning) (table_of_all reads entries)) (rows (table_of_all reads entries)) }
{}
