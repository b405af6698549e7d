//! The fields of a JSON object, read and printed: kinds of values in both directions, and fields that are
//! needed, optional, or have a default. It knows nothing of what the objects are for.
#![tactic(auto)]

mod fault;
mod fields;
mod kind;
mod laws;
mod object;
mod text_map;
mod writing;

pub use fault::FieldFault;
pub use fields::{Fields, find};
pub use kind::FieldKind;
pub use laws::{
    a_printed_field_reads_again, compact_json_is_one_line, what_is_read_can_be_printed,
};
pub use object::Object;
pub use text_map::TextMap;
pub use writing::{write_field, write_optional, write_unless_empty};
