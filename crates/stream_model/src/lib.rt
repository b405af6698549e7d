//! Worlds of actors over one store, event by event, and what is so of every one: laws, each a function whose contract
//! is the law. The product calls no code of this crate.
#![tactic(auto)]

mod worlds;

pub use worlds::{an_event_that_fits_has_its_effect, every_world, what_stands_in_a_world_stays};
