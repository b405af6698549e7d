//! Cases as they are written and told: lines of words and numbers, the bytes that a text spells, streams that fail
//! where a case wants it, and what is told of all that. It knows nothing of stores, tables and their logs.
#![tactic(auto)]

mod bytes;
mod notation;
mod streams;
mod transcript;
mod words;

pub use bytes::{add_line, add_many, changed};
pub use notation::Bindings;
pub use streams::{Manner, SOUND, Sink, Source};
pub use transcript::{Transcript, add_one};
pub use words::{head, reads_of};
