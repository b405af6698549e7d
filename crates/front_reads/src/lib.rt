//! Reads of a few rows of a long log: in front of which version they are looked for first, which names are visible
//! there, and that what is read there is what the whole log has.
#![tactic(auto)]

mod fronts;
mod laws;
mod visibility;

pub use fronts::{Front, front_for};
pub use laws::a_front_is_read_as_the_whole;
pub use visibility::{is_visible, visible_names};
