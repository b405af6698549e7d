//! An actor: a session, and what it has at hand.

ghost use Rattle.std.specs.Prelude.{◌≡◌, false, true};
ghost use Rattle.stream_world.specs.Hands.{is_at_hand};
ghost use Rattle.table_jobs.specs.Sessions.{awaited, is_ended};

use session_core::{Reply, Request};
use table_jobs::JobSession;

/// What a session has at hand that hasn't ended.
#[derive(Drop)]
pub enum Hand {
    /// It has asked for nothing yet.
    Fresh,
    /// It asks for a call, which isn't made yet.
    Asks(Request),
    /// The answer to its call waits.
    Waits(Reply),
}

/// A session that hasn't ended, with what it has at hand.
#[derive(Drop)]
pub struct Actor {
    pub session: JobSession<'static>,
    pub hand: Hand,
    pub ghost unended: { is_ended session ≡ false },
    pub ghost ready: { is_at_hand (awaited session) hand ≡ true },
}
