//! The Thrift compact protocol: bytes read as a tree of values, and a tree written as bytes. It knows
//! nothing of what the structs are for.
#![tactic(auto)]

mod form;
mod laws;
mod reading;
mod source;
mod wire;
mod writable;
mod writing;

pub use form::{FieldForm, Form};
pub use laws::one_tree_in_front;
pub use reading::{MAX_DEPTH, MAX_NODES, read_struct};
pub use thrift_values::{Field, MapEntry, ReadError, TValue, ThriftFault, fields};
pub use wire::WireType;
pub use writable::is_writable;
pub use writing::write_struct;
