//! Laws on stores that keep a table, whoever put their commits: what a line is told over one, what reads by texts hand
//! out, and which sound stores keep one as scripts find it.

ghost use Rattle.std.specs.Prelude.{◌≡◌, ◌≢◌, ◌≤◌, ℕ, List, [], length, take, Some};
ghost use Rattle.store_core.specs.Objects.{Objects};
ghost use Rattle.store_core.specs.Names.{greatest_version};
ghost use Rattle.row_core.specs.Rows.{Row};
ghost use Rattle.table_model.specs.Reads.{position};
ghost use Rattle.table_model.specs.Resumed.{beginning};
ghost use Rattle.table_model.specs.Table.{Entry, rows};
ghost use Rattle.table_model.specs.declared.reading.Offset.{Offset};
ghost use Rattle.table_store.specs.Schema.{Schema};
ghost use Rattle.table_store.specs.Sound.{IsSound};
ghost use Rattle.log_offsets.specs.Offsets.{offset_of};
ghost use Rattle.lake_script.specs.Tails.{tails};
ghost use Rattle.lake_script.specs.Kept.{KeepsTable};
ghost use Rattle.lake_script.specs.Keeps.{HasNoOther, Keeps, KeepsBeside};
ghost use Rattle.script_lines.specs.Lines.{Statement, asks};
ghost use Rattle.lake_script.specs.Scripts.{reply_over};
ghost use Rattle.lake_script.specs.Sound.{IsSoundStatement};
ghost use Rattle.lake_script.specs.Tables as tables;
ghost use Rattle.lake_script.specs.Tables.{TableState, entries_of_state, table};
ghost use Rattle.lake_script.specs.Told.{IsPutHere, left_by_statement, reply_to_statement};
ghost use Rattle.lake_script.specs.Readable.{HasReadableFiles};
ghost use Rattle.job_laws.specs.TextReads.{ReadsByTexts};

/// Over a store that keeps a table, where a commit can have the version behind it, or nothing, a creation, an append, a
/// read, a checkpoint and a history are told what the plain table tells, and an object that is shown is told as it
/// stands; where the line puts no other tool's commit, the store goes on to keep the table that is left. It is asked
/// that what the line puts is well made, as its contract says.
pub fn a_kept_table_is_told()
    ensures told { (objects : Objects) (state : TableState) (statement : Statement) (printed : List ℕ) → Keeps objects state → length (entries_of_state state) ≤ greatest_version
        → IsSoundStatement objects statement printed → reply_to_statement objects statement printed ≡ reply_over state objects statement printed }
    ensures kept { (objects : Objects) (state : TableState) (statement : Statement) (printed : List ℕ) → Keeps objects state → length (entries_of_state state) ≤ greatest_version
        → IsSoundStatement objects statement printed → IsPutHere (asks statement) → Keeps (left_by_statement objects statement printed) (tables.table_left_by_statement state statement) }
{}

/// Reads that follow one another by texts, each from a text that spells the offset where the one before ended (as the
/// text that it tells does, by `source_core::offset_text`), hand out what reads by offsets do: over a store that keeps
/// a table its rows, each once and in the order of the log, up to the offset that the last text spells.
pub fn reads_by_texts_hand_out_the_log()
    ensures same { (objects : Objects) (limits : List ℕ) (text last : List ℕ) (out : List Row) (start : Offset) → ReadsByTexts objects limits text out last → offset_of text ≡ Some start
        → (out ≡ (tails objects limits start).rows) × (offset_of last ≡ Some (tails objects limits start).next) }
    ensures log { (objects : Objects) (schema : Schema) (entries : List Entry) (limits : List ℕ) (text last : List ℕ) (out : List Row) → KeepsTable objects schema entries
        → offset_of text ≡ Some beginning → ReadsByTexts objects limits text out last
        → (next : Offset) × (offset_of last ≡ Some next) × (out ≡ take (position next entries) (rows entries)) }
{}

/// A sound store with a table, in which no data file of another batch stands, keeps it as a script finds it, where each
/// batch's file has at most 64 MiB and 4,194,304 rows, so that what is said of scripts is said of it (`keeps`); and a
/// store that keeps a table so keeps it where such files may stand (`beside`). Whose commits they are doesn't matter.
pub fn a_sound_store_without_other_files_keeps_its_table()
    ensures keeps { (objects : Objects) (sound : IsSound objects) → sound.entries ≢ [] → HasReadableFiles objects sound.entries → HasNoOther objects sound.entries
        → Keeps objects (table sound.schema sound.entries) }
    ensures beside { (objects : Objects) (state : TableState) → Keeps objects state → KeepsBeside objects state }
{}
