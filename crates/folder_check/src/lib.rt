//! The table in a folder, judged: whether its objects are sound, and what lies beside them.
#![tactic(auto)]

mod beside;
mod checking;
mod fault;
mod progress;
mod reader;

pub use checking::Report;
pub use fault::CheckFault;
pub use progress::{NoProgress, Progress, TerminalProgress};
pub use reader::FolderReader;
