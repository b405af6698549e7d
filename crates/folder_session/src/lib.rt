//! Jobs on the table in a folder as sessions: each file that one asks for is opened in the folder, so that of its files
//! just those are opened that the job looks at.
//!
//! [`tail`] reads rows by a session that only reads; [`drive_beside`] runs one that puts something, which is to be
//! saved behind it, and [`run`] does so with that of any job; [`snapshot`] tells what a log leaves.
#![tactic(auto)]

mod asking;
mod beside;
mod driving;
mod fronts;
mod running;
mod tailing;
mod telling;

pub use beside::{Beside, drive_beside};
pub use running::run;
pub use tailing::tail;
pub use telling::snapshot;
