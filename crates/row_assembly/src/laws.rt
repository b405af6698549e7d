//! Laws of columns and the rows assembled of them, each a function with an empty body whose contract is the law.

ghost use Rattle.std.specs.Prelude.{◌≡◌, ◌↔◌, ℕ, List, Ok, Err};
ghost use Rattle.row_core.specs.Rows.{Row};
ghost use Rattle.schema_tree.specs.Fault.{Path};
ghost use Rattle.shred.specs.Columns.{Column, AreColumnsOf};
ghost use Rattle.shred.specs.Shape.{Shape, HasFields};
ghost use Rattle.row_assembly.specs.Assembly.{assembled, AreEven};
ghost use Rattle.row_assembly.specs.Faults.{uneven_columns, level_mismatch};
ghost use Rattle.row_assembly.specs.Mismatch.{FailsFirst, IsMismatch, StopsAt};

/// Rows that fit, as columns, are assembled to these rows, where each struct has a field.
pub fn rows_are_assembled_again()
    ensures { (shape : Shape) (rows : List Row) (given : List Column) → HasFields shape
        → AreColumnsOf shape rows given → assembled shape given ≡ Ok rows }
{}

/// Columns that are assembled are those of the rows, which fit.
pub fn columns_are_shredded_again()
    ensures { (shape : Shape) (given : List Column) (rows : List Row) → assembled shape given ≡ Ok rows
        → AreColumnsOf shape rows given }
{}

/// Columns are those of one list of rows at most, where each struct has a field.
pub fn columns_have_one_list_of_rows()
    ensures { (shape : Shape) (given : List Column) (rows others : List Row) → HasFields shape
        → AreColumnsOf shape rows given → AreColumnsOf shape others given → rows ≡ others }
{}

/// Columns are refused as uneven just where they are uneven.
pub fn uneven_columns_are_told_apart()
    ensures { (shape : Shape) (given : List Column) → (assembled shape given ≡ Err uneven_columns)
        ↔ (AreEven shape given → ⊥) }
{}

/// Columns are refused for a mismatch just where they are even and there is a row at which they stop: cut to the rows
/// before it they are the columns of rows that fit, and no row that fits has its cells. Each struct has a field.
pub fn mismatches_come_at_a_row_that_cannot_be_made()
    ensures refused { (shape : Shape) (given : List Column) → HasFields shape
        → ((path : Path) × (assembled shape given ≡ Err (level_mismatch path)))
        ↔ (AreEven shape given × ((place : ℕ) × StopsAt shape given place)) }
    // It is the row at which the leaf that is told fails.
    ensures same { (shape : Shape) (given : List Column) (place leaf : ℕ) → HasFields shape → AreEven shape given
        → FailsFirst shape given place leaf → StopsAt shape given place }
{}

/// Columns are refused for a mismatch with a path just where they are even and the first row that they don't give
/// fails first at the leaf of this path, depth first: some row that fits has the cells of the leaves before, and none
/// has these and the leaf's. Each struct has a field.
pub fn mismatches_are_told_at_the_first_leaf()
    ensures { (shape : Shape) (given : List Column) (path : Path) → HasFields shape
        → (assembled shape given ≡ Err (level_mismatch path)) ↔ IsMismatch shape given path }
{}
