//! What the lines of a script do over a store, and their replies. [`run_text`] answers a whole script, [`execute`] one line.
//! How a line is spelled is `script_lines`' affair; words of a command line and folders are none of either.
#![tactic(auto)]

mod ending;
mod engine;
mod faults;
mod foreign;
mod inputs;
mod interpreter;
mod jobs;
mod looks;
mod outputs;
mod over_store;
mod reply;
mod running;
mod showing;

pub use ending::{reply_learning, reply_of};
pub use engine::{End, Outcome, run_text};
pub use faults::{Fault, RefusalText};
pub use inputs::{Input, InputError, MOST_BYTES, MOST_READS};
pub use interpreter::{Interpreter, answer_lines};
pub use jobs::{creation_of, job_of_task, no_room_for};
pub use outputs::{Output, OutputError};
pub use reply::{LineReply, execute, reply_of_read};
pub use script_lines::{Job, Line, Look};
