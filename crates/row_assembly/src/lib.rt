//! Columns with definition levels assembled to the rows whose columns they are, all of them or some that follow one
//! another, or why there are none. It knows no bytes and no physical types, and makes no columns.
#![tactic(auto)]

mod assembling;
mod cells;
mod fault;
mod laws;
mod neighbours;
mod parts;
mod rows;

pub use assembling::assemble;
pub use fault::ShredError;
pub use laws::{
    columns_are_shredded_again, columns_have_one_list_of_rows,
    mismatches_are_told_at_the_first_leaf, mismatches_come_at_a_row_that_cannot_be_made,
    rows_are_assembled_again, uneven_columns_are_told_apart,
};
pub use parts::assemble_part;
