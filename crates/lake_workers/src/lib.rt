//! What a worker does at a seat of a hub: `drive` runs the session of a job to its end through it, `run_stream` one of
//! a stream by what the worker knows of the log and `run_read` a read, and `prepare` makes a batch's file without the
//! hub.
#![tactic(auto)]

mod asking;
mod driven;
mod driving;
mod following;
mod laws;
mod reading;
mod streaming;

pub use asking::{Answer, ask};
pub use driven::Driven;
pub use driving::{drive, drive_with};
pub use following::follow;
pub use laws::{
    what_a_seat_has_seen_bears_its_talk, what_is_known_of_a_log_stays, what_was_learnt_goes_before,
};
pub use reading::run_read;
pub use sink_core::{Prepared, prepare};
pub use streaming::{StreamEnd, run_stream};
