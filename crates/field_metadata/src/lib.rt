//! What a table's schema tells of a field, as a JSON object in any allocator: kept as its text, copied, compared. It
//! knows nothing of fields and their types.
#![tactic(auto)]

mod metadata;

pub use metadata::Metadata;
