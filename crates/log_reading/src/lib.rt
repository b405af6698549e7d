//! A table's log as a read from a version on sees it (Delta PROTOCOL.md, "Delta Log Entries" and "Checkpoints"): by a
//! checkpoint and the versions behind it, or by all versions; and what reads ask of it.
#![tactic(auto)]

mod kept_file;
mod listing;
mod log;
mod log_cache;
mod reading;
mod reads;
mod schema_text;
mod schemas;
mod starting;

pub use kept_file::KeptFile;
pub use listing::{Checkpoint, Listing};
pub use log::{Log, Standing, begin_log};
pub use log_cache::LogCache;
pub use reading::{LaterSchema, Reading};
pub use reads::{first_standing, removes_rows, standing_at, supported};
pub use schema_text::{SchemaText, TableSchema};
pub use schemas::{changes_schema, in_force};
pub use starting::CheckpointSchema;
