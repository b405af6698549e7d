//! Laws of rows and their columns, each a function with an empty body whose contract is the law.

ghost use Rattle.std.specs.Prelude.{List, All, IsSome};
ghost use Rattle.row_core.specs.Conforms.{Conforms};
ghost use Rattle.row_core.specs.Rows.{Row};
ghost use Rattle.schema_tree.specs.Tree.{Tree};
ghost use Rattle.shred.specs.Columns.{columns};
ghost use Rattle.shred.specs.Fits.{FitsShape};
ghost use Rattle.shred.specs.Shape.{Shape, shape_of};

/// Rows that conform to a schema fit its shape, that of `Shape::of_schema`, so that they can be shredded.
pub fn rows_that_conform_fit()
    ensures { (t : Tree) (r : Row) → Conforms t r → FitsShape (shape_of t) r }
{}

/// Rows that fit have columns.
pub fn rows_that_fit_have_columns()
    ensures { (shape : Shape) (rows : List Row) → All (FitsShape shape) rows → IsSome (columns shape rows) }
{}
