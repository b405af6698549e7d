//! Checkpoints: what a log leaves as an object of its own, so that the log is read from there on. It knows nothing of
//! stores, the bytes of files, or batches.
#![tactic(auto)]

mod fault;
mod naming;
mod printing;
mod reading;

pub use fault::{CheckpointError, CheckpointFault};
pub use naming::{checkpoint_name, checkpoint_version};
pub use printing::print_checkpoint;
pub use reading::read_checkpoint;
