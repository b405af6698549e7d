//! What the program tells on standard error beside a reply: of a table that takes no rows which columns have none, of a
//! batch without rows that it uses up its number, of a refusal what it means and which limit was passed, of a folder's
//! call that failed what to do about it, and of a bad line of a script what is wrong with it.
#![tactic(auto)]

mod error_output;
mod flaws;
mod hinting;
mod meanings;
mod noting;
mod remedies;

pub use error_output::ErrorOutput;
pub use flaws::tell_bad_line;
pub use hinting::hint_refusal;
pub use meanings::{explain, explain_reply};
pub use noting::note_done;
pub use remedies::hint_reason;
