//! What a line of a script asks for: a text split at newlines, and the words, numbers and rows of one line.
//! [`first_line`] splits a text, [`reading_of`] reads a line. It knows nothing of stores and tables, nor of what a line
//! does and what it is told.
#![tactic(auto)]

mod fields;
mod kind;
mod line;
mod reading;
mod splitting;
mod verb;

pub use kind::Kind;
pub use line::{Job, Line, Look, WorldLine};
pub use reading::{Reading, reading_of};
pub use splitting::first_line;
