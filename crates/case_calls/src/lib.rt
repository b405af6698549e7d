//! Stores and folders of cases: calls of a store as lines, what becomes of them, and what they answer; sessions that
//! wait for their answers; scripts with what stands before they run; and folders that another process writes to as
//! well. It knows nothing of tables and their logs.
#![tactic(auto)]

mod calls;
mod rows;
mod scripts;
mod shared;
mod turns;
mod waiting;

pub use calls::{tell_call, tell_request};
pub use rows::spelled_rows;
pub use scripts::{Run, Script};
pub use shared::{Rival, SharedFolder};
pub use turns::CaseStore;
pub use waiting::{Waiting, begin, place_of, step};
