//! A world in code: actors, each with a session, that act on one store, event by event; and what was told by a list of
//! events.
//!
//! Over a store that loses no call it does just what `stream_model` says may happen in a world. So what is so of every
//! world is so of one that began with nothing.
#![tactic(auto)]

mod acting;
mod actor;
mod calling;
mod event;
mod running;
mod world;

pub use actor::{Actor, Hand};
pub use event::{Event, How};
pub use running::{Ran, run};
pub use stream_model::every_world;
pub use world::World;
