//! The rows of a log from a place on: where a read may begin, which data files follow, what stands in its way, and how
//! rows are handed out of one file after the other. It asks for nothing: it is told what stands.
#![tactic(auto)]

mod handing;
mod items;
mod places;
mod read_state;
mod tail_fault;

pub use items::{Item, LogFile, VersionFault};
pub use places::{check_place, table_schema};
pub use read_state::{Handing, ReadRows};
pub use tail_fault::TailFault;
