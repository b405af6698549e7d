//! Laws of rows, each a function with an empty body whose contract is the law.

ghost use Rattle.std.specs.Prelude.{◌≡◌, ◌↔◌, IsTrue, List, true, Ok};
ghost use Rattle.serde_json.specs.Data.{Data};
ghost use Rattle.row_core.specs.Conforms.{Conforms};
ghost use Rattle.row_core.specs.Printing.{data_of_row};
ghost use Rattle.row_core.specs.Reading.{row_of};
ghost use Rattle.row_core.specs.Rows.{Row, same_rows};
ghost use Rattle.schema_tree.specs.Limits.{is_sound};
ghost use Rattle.schema_tree.specs.Tree.{Tree};

/// Rows are the same exactly where they are equal.
pub fn equal_rows_are_the_same()
    ensures { (xs ys : List Row) → IsTrue (same_rows xs ys) ↔ (xs ≡ ys) }
{}

/// What is read conforms to the schema.
pub fn what_is_read_conforms()
    ensures { (t : Tree) (d : Data) (r : Row) → row_of t d ≡ Ok r → Conforms t r }
{}

/// A row that conforms and is printed as JSON is read again as itself. The names in each struct are distinct, as in
/// each schema.
pub fn what_conforms_reads_again()
    ensures { (t : Tree) (r : Row) → is_sound t ≡ true → Conforms t r
        → row_of t (data_of_row t r) ≡ Ok r }
{}

/// JSON is read as just the rows that conform.
pub fn rows_are_what_conforms()
    ensures { (t : Tree) (r : Row) → is_sound t ≡ true
        → Conforms t r ↔ ((d : Data) × (row_of t d ≡ Ok r)) }
{}
