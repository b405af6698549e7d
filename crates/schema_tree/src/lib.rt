//! The types of a table's columns as a tree, in any allocator: read from a schema's JSON text, printed, copied
//! and compared. It knows nothing of rows.
#![tactic(auto)]

mod copying;
mod counts;
mod fault;
mod fractions;
mod laws;
mod node;
mod paths;
mod primitive;
mod printing;
mod reading;
mod sameness;
mod schema;
mod steps;

pub use fault::{ReadError, SchemaFault};
pub use field_metadata::Metadata;
pub use laws::{what_is_printed_reads_again, what_is_read_keeps_the_limits};
pub use node::{Field, Node};
pub use paths::ColumnPath;
pub use primitive::Primitive;
pub use schema::Schema;
pub use steps::Leaf;
