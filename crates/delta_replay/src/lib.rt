//! What the commits of a table's log leave, read one behind the other: the newest action of each key. It knows nothing
//! of stores, the bytes of files, or batches.
#![tactic(auto)]

mod actions;
mod closing;
mod features;
mod keeping;
mod kept;
mod keyed;
mod lists;
mod newest;
mod places;
mod readable;
mod snapshot;
mod streams;
mod support;
mod writable;

pub use closing::closes;
pub use kept::{FileAction, Snapshot};
pub use newest::{newest_meta_data, newest_protocol};
pub use readable::{readable_meta_data, schema_in};
pub use support::{SupportError, SupportFault};
