//! Laws of Parquet files, each a function with an empty body whose contract is the law: what a fault says stands in
//! the bytes that are refused for it, none stands in a file, and a written file says its own sizes.
#![tactic(auto)]

ghost use Rattle.std.specs.Prelude.{◌≡◌, ℕ, List, None, Ok, Err};
ghost use Rattle.outcomes.specs.Bytes.{IsBytes};
ghost use Rattle.row_core.specs.Rows.{Row};
ghost use Rattle.row_core.specs.Unsupported.{unsupported};
ghost use Rattle.schema_tree.specs.Limits.{IsWithinLimits};
ghost use Rattle.schema_tree.specs.Tree.{Tree, Fields, struct};
ghost use Rattle.parquet_footer.specs.declared.fault.FileFault.{FileFault};
ghost use Rattle.parquet_file.specs.File.{IsFile, KeepsLimits};
ghost use Rattle.parquet_file.specs.Reading.{rows_at};
ghost use Rattle.parquet_file.specs.Writing.{written_file};
ghost use Rattle.file_laws.specs.Faults.{FaultStands};
ghost use Rattle.file_laws.specs.Sizes.{SaysItsSizes};

/// Where bytes are refused, what the fault says is so of them. `parquet_file::read_rows` answers just the fault that
/// `rows_at` gives, unless memory runs out.
pub fn a_named_fault_stands()
    ensures { (bytes : List ℕ) (t : Tree) (fault : FileFault) → IsWithinLimits t → IsBytes bytes
        → rows_at bytes t ≡ Err fault → FaultStands bytes t fault }
{}

/// In a file of a table's rows, within the limits of what is read, nothing is so that a fault says.
pub fn no_fault_stands_in_a_file()
    ensures { (bytes : List ℕ) (t : Tree) (fault : FileFault) (rows : List Row) → IsWithinLimits t → IsBytes bytes
        → IsFile bytes t rows → KeepsLimits bytes rows → FaultStands bytes t fault → ⊥ }
{}

/// The footer of a file that is written says how many rows there are, how many values each chunk has, where the
/// chunks begin, and how many bytes they and their row group have. Of tables whose columns all have values.
pub fn what_is_written_says_its_sizes()
    ensures { (columns : Fields) (rows : List Row) (bytes : List ℕ) → IsWithinLimits (struct columns)
        → unsupported (struct columns) ≡ None
        → written_file (struct columns) rows ≡ Ok bytes → SaysItsSizes (struct columns) rows bytes }
{}
