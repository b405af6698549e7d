//! The program's commands: what each does, what it tells, and its exit status.
//!
//! [`command`] takes the words of a command line. A job on the table in a folder goes by [`answer`], over any folder,
//! and [`table_command`], which tells its reply.
#![tactic(auto)]

mod answering;
mod checking;
mod commands;
mod exit;
mod explaining;
mod failure;
mod job_line;
mod putting;
mod saving;
mod telling;

pub use answering::answer;
pub use checking::check_command;
pub use commands::command;
pub use exit::{DONE, Exit, MISUSED, REFUSED};
pub use failure::Failure;
pub use telling::table_command;
