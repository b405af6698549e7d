//! Seats with the receipts that they were given: what cases make of the calls of a hub, so that receipts stay shown.
#![tactic(auto)]

mod holder;
mod holding;
mod names;

pub use holder::Holder;
pub use holding::{gathered, parted, placed};
