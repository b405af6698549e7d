//! The rows of a table: trees of values, read from JSON and printed, and whether they conform to a schema.
#![tactic(auto)]

mod conforming;
mod fault;
mod laws;
mod printer;
mod ranges;
mod reading;
mod support;
mod value;

pub use conforming::conforms;
pub use fault::{RowError, RowFault};
pub use laws::{
    equal_rows_are_the_same, rows_are_what_conforms, what_conforms_reads_again,
    what_is_read_conforms,
};
pub use printer::RowPrinter;
pub use ranges::MAX_BYTES;
pub use reading::row_from_json;
pub use support::unsupported;
pub use value::{Value, same_rows};
