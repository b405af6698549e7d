//! A hub, at which threads share a book: the lock round it, seats with what each has seen, and their calls. The lock is a
//! channel with room for one book; its rule says what each seat's pass has seen of the book's history. A pass takes the
//! book out, and puts it back with its seat's call behind.
#![tactic(auto)]

mod answering;
mod finishing;
mod hub;
mod laws;
mod lock;
mod opening;
mod reach;
mod receipt;

pub use finishing::{SeatsMissing, finish};
pub use hub::{Hub, Naming, Seat};
pub use laws::{
    a_book_has_what_its_seats_have_seen, a_call_adds_to_what_was_seen,
    the_log_of_a_seat_only_grows, the_log_of_a_sound_store,
};
pub use opening::{Opened, Seated};
pub use receipt::{Receipt, Tried};
