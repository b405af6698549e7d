//! Lines of cases as words: what a line asks for, the bytes, numbers and levels that it spells, and what is told of it,
//! as text. It knows nothing of schemas, rows and files.
//!
//! Reading words and telling go on after a fault: it is remembered, and told at the end. So what is called on the way
//! gives no results that have to be looked at.
#![tactic(auto)]

mod fault;
mod levels;
mod question;
mod spelling;
mod spoiling;
mod transcript;
mod words;

pub use fault::LineFault;
pub use levels::{tell_hybrid, tell_left, tell_number};
pub use question::{HeapKind, Kind, Question, TableKind, question_named};
pub use spoiling::{Tallies, spoiled};
pub use transcript::Transcript;
pub use words::{Bindings, Words};
