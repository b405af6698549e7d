//! The values of the Thrift compact protocol as a tree, and the fields of a struct by their ids, each read as the kind
//! that its reader needs; and why bytes can't be read as such a tree. It reads none.
#![tactic(auto)]

mod fault;
mod field;
pub mod fields;
mod value;

pub use fault::{ReadError, ThriftFault};
pub use value::{Field, MapEntry, TValue};
