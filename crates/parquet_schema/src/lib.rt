//! The columns of a Parquet file against those of a table: the tree that a footer's list tells, and the shape and the
//! leaves that the table's rows have in it. It knows nothing of pages and bytes.
#![tactic(auto)]

mod fitting;
mod laws;
mod leaves;
mod reading;
mod tree;

pub use fitting::{FileShape, fit};
pub use laws::{a_list_has_one_tree, leaves_are_those_of_the_shape, the_tables_own_tree_fits};
pub use leaves::{FileLeaf, leaves_of_schema};
