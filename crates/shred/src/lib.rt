//! Rows as columns with definition levels, as Apache Parquet has them without repeated fields ("Nested Encoding"). It
//! knows no bytes and no physical types, and makes no rows again of columns.
#![tactic(auto)]

mod columns;
mod laws;
mod shapes;
mod shredding;
mod ways;

pub use columns::{Cell, Column, ColumnPart};
pub use laws::{rows_that_conform_fit, rows_that_fit_have_columns};
pub use shapes::{Shape, ShapeField};
pub use shredding::{column_of, shred};
pub use ways::{Step, ways_of};
