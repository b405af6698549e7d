//! The words of the program's command line: what it can be asked for, and the reader of the words.
#![tactic(auto)]

mod arguments;
mod command;
mod parser;
mod reading;
mod subcommands;

pub use command::{Command, Job, TableCommand};
pub use reading::read_words;
