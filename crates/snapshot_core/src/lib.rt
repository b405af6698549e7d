//! The checkpoint of a table's newest version, put into its store, and what its log leaves, told as text.
#![tactic(auto)]

mod checkpoint_laws;
mod checkpoint_session;
mod fault;
mod lines;
mod making;
mod telling;

pub use checkpoint_laws::{a_checkpoint_asks_for_little, what_is_known_stands};
pub use checkpoint_session::{CheckpointEnd, CheckpointSession, CheckpointStage};
pub use fault::SnapshotFault;
pub use telling::{snapshot, snapshot_text};
