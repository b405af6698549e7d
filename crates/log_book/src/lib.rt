//! The book of a log that many share: what stands, how many commits it has, and the calls that were made, each by a
//! seat. Whoever has the book makes one call at a time, as of a store of one thread; no thread is started here.
#![tactic(auto)]

mod book;
mod final_log;
mod laws;
mod opening_fault;
mod record;

pub use book::Book;
pub use final_log::FinalLog;
pub use laws::{
    a_call_keeps_a_store_sound, each_front_is_a_book, what_a_history_leaves,
    what_stands_stays_along_a_history,
};
pub use opening_fault::OpeningFault;
pub use record::{Call, CallRecord};
