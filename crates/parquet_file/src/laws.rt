//! Laws of files, each a function with an empty body whose contract is the law.

ghost use Rattle.std.specs.Prelude.{◌≡◌, ℕ, List};
ghost use Rattle.row_core.specs.Rows.{Row};
ghost use Rattle.schema_tree.specs.Limits.{IsWithinLimits};
ghost use Rattle.schema_tree.specs.Tree.{Tree};
ghost use Rattle.parquet_file.specs.File.{IsFile};

/// Bytes are a file of one list of rows of a table at most.
pub fn one_list_of_rows()
    ensures { (bytes : List ℕ) (t : Tree) (rows others : List Row) → IsWithinLimits t → IsFile bytes t rows → IsFile bytes t others → rows ≡ others }
{}
