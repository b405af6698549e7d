//! Logs of cases, which are given as text, and what their snapshots and checkpoints answer. It knows nothing of rows,
//! and of stores but such as hold what a case puts.
#![tactic(auto)]

mod answers;
mod growing;
mod questions;
mod snapshots;
mod tails;

pub use questions::tell_logs;
