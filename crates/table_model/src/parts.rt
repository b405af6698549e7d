//! Laws of the parts of a table that reads hand out, whichever reader hands them out.

ghost use Rattle.std.specs.Prelude.{◌≡◌, ◌⊎◌, ℕ, ◌+◌, ◌<◌, Bool, List, [], ◌++◌, take, sum_by, true, false};
ghost use Rattle.row_core.specs.Rows.{Row};
ghost use Rattle.table_model.specs.Table.{Entry, rows};
ghost use Rattle.table_model.specs.Reads.{read, handed, position, is_offset, end, IsPart, MayEnd};
ghost use Rattle.table_model.specs.Resumed.{ResumedReads, HandOut, reads_on, growth, beginning};
ghost use Rattle.table_model.specs.declared.reading.Offset.{Offset};

/// What a read hands out is a part of the table: `max` rows, or all up to the log's end.
pub fn a_read_is_a_part()
    ensures part { (max : ℕ) (offset next : Offset) (entries : List Entry) (out : List Row) → read max offset entries ≡ handed out next → IsPart max offset out next entries }
    ensures ends { (max : ℕ) (offset next : Offset) (entries : List Entry) (out : List Row) → read max offset entries ≡ handed out next → MayEnd false max out next entries }
{}

/// Where no fault ends them early, two reads from one offset with one limit hand out the same rows and come equally
/// far.
pub fn a_part_is_the_only_one()
    ensures { (max : ℕ) (offset p q : Offset) (entries : List Entry) (xs ys : List Row) → IsPart max offset xs p entries → MayEnd false max xs p entries
        → IsPart max offset ys q entries → MayEnd false max ys q entries → (xs ≡ ys) × (position p entries ≡ position q entries) }
{}

/// A read that may hand out a row comes further or to the end of the log, also where a fault ends it early.
pub fn a_read_comes_further()
    ensures { (faulty : Bool) (max : ℕ) (offset next : Offset) (entries : List Entry) (out : List Row) → 0 < max → IsPart max offset out next entries → MayEnd faulty max out next entries
        → (position offset entries < position next entries) ⊎ (next ≡ end entries) }
{}

/// A part stays one while the table grows, and with the part that begins where it ended it is one part. A read that is
/// refused counts as a part of no rows.
pub fn parts_that_follow_are_one()
    ensures none { (max : ℕ) (offset : Offset) (entries : List Entry) → is_offset offset entries ≡ true → IsPart max offset [] offset entries }
    ensures stays { (max : ℕ) (offset next : Offset) (entries more : List Entry) (out : List Row) → IsPart max offset out next entries → IsPart max offset out next (entries ++ more) }
    ensures joined { (m n : ℕ) (offset mid next : Offset) (entries more : List Entry) (xs ys : List Row)
        → IsPart m offset xs mid entries → IsPart n mid ys next (entries ++ more) → IsPart (m + n) offset (xs ++ ys) next (entries ++ more) }
{}

/// A part from the beginning is the table's first rows, up to its next offset, and all of them where that is the log's
/// end.
pub fn a_part_from_the_beginning_is_a_front()
    ensures front { (max : ℕ) (next : Offset) (entries : List Entry) (out : List Row) → IsPart max beginning out next entries → out ≡ take (position next entries) (rows entries) }
    ensures all { (max : ℕ) (entries : List Entry) (out : List Row) → IsPart max beginning out (end entries) entries → out ≡ rows entries }
{}

/// Reads that each go on where the last one ended, while the table grows between them, hand out together one part of
/// the final table, and from the beginning its first rows: each once, in the order of the log, whichever reader it is
/// and whatever ends its reads. The reads of the function are such reads.
pub fn any_reader_hands_out_the_log()
    ensures final_table { (reads : List (ℕ × List Entry)) (offset : Offset) (entries : List Entry) (all : ResumedReads) → HandOut reads offset entries all → all.final ≡ entries ++ growth reads }
    ensures part { (reads : List (ℕ × List Entry)) (offset : Offset) (entries : List Entry) (all : ResumedReads) → is_offset offset entries ≡ true → HandOut reads offset entries all
        → IsPart (sum_by (λ r. r.0) reads) offset all.out all.next all.final }
    ensures from_beginning { (reads : List (ℕ × List Entry)) (entries : List Entry) (all : ResumedReads) → HandOut reads beginning entries all
        → all.out ≡ take (position all.next all.final) (rows all.final) }
    ensures function { (reads : List (ℕ × List Entry)) (offset : Offset) (entries : List Entry) → is_offset offset entries ≡ true → HandOut reads offset entries (reads_on reads offset entries) }
{}
