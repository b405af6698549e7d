//! Whether the objects of a store are sound, and else the least version whose commit, file or checkpoint breaks it, and
//! why.
#![tactic(auto)]

mod auditing;
mod beside;
mod checkpoint;
mod creation;
mod entry;
mod fault;
mod file;
mod group;
mod listing;
mod numbers;
mod reader;
mod reason;
mod verdict;
mod walk;

pub use auditing::audit;
pub use beside::unnamed;
pub use fault::AuditError;
pub use reader::ObjectReader;
pub use reason::{ApplicationId, Reason, Unsound};
pub use verdict::Verdict;
