//! Sessions: machines without input and output, which ask for one call of a store at a time and are told its answer.
//!
//! What a session does is said of its *talk*, what was asked and told so far, and of no store. `drive` runs one over a
//! store, and alone says what becomes of the store meanwhile. Whoever answers in another way (a store that many share,
//! a lock, a world that loses what it likes) proves that it answers as a store may, and has all that is said of the
//! session.
#![tactic(auto)]

mod asking;
mod driving;
mod laws;
mod session;

pub use asking::{Reply, Request, ask};
pub use driving::drive;
pub use laws::{
    a_store_answers_as_any_store_may, a_talk_is_borne, what_a_longer_talk_shows,
    what_grows_is_shown_as_it_was_listed, what_is_borne_stays_borne,
    what_is_borne_twice_is_borne_at_once, what_is_read_is_shown,
};
pub use session::{Session, Step};
