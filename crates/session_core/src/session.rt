//! What a session is to those who answer it.
ghost use Rattle.std.specs.Prelude.{◌≡◌, ℕ, Bool, false, Option, option_map};
ghost use Rattle.session_core.specs.Sessions.{Goes, Steps, TellsLost};
ghost use Rattle.session_core.specs.Talks.{Asked, Kind, Talk, IsReplyTo, heard, told_view};

use crate::{Reply, Request};

/// What a session does next.
#[derive(Drop)]
pub enum Step<T> {
    /// It asks for a call, and waits for its answer.
    Ask(Request),
    /// It has ended, with this outcome.
    Done(T),
}

/// A machine without input and output that makes calls of a store: it asks for one, is told what was answered, and goes
/// on, until it has an outcome. Its contract speaks of its job and of its talk, the calls so far with what was told,
/// and of no store: what it asks for and what it tells hold whoever answers, and however much time and how many others
/// there are between two calls. A session may begin with something that is known of the store from calls of others; the
/// talk in which these were made goes before its own, and no call of it counts as one of its own.
pub trait Session {
    ghost use Rattle.session_core.specs.Talks.{Asked, Kind, Talk};

    type Outcome;

    /// What a session is to do, as plain data.
    ghost Job: { Type 0 };

    /// What this one is to do. It stays.
    ghost job: { Self → Job };

    /// The kind of the call that waits for an answer. Before the first call none does.
    ghost awaits: { Self → Option Kind };

    /// Behind what was known before it began, a session where it is now may have had this talk of its own, and wait for
    /// an answer to this call. No store stands in it.
    ghost fits: { (before : Talk) → Self → Talk → Option Asked → Type 0 };

    /// How many calls it still makes at most.
    ghost left: { Self → ℕ };

    /// The session has ended.
    ghost done: { Self → Bool };

    /// What its job asks for behind a talk of its own, and behind what was known before it.
    ghost asks: { Job → (before talk : Talk) → Asked → Type 0 };

    /// What its job tells behind a talk of its own, and behind what was known before it.
    ghost ends: { Job → (before talk : Talk) → Self.Outcome → Type 0 };

    /// The outcome tells that a call was lost.
    ghost lost: { Self.Outcome → Bool };

    /// Whether the session has ended. It isn't asked for a step then. Takes no memory.
    fn is_done(&self) -> bool
        ensures { result ≡ done self.now };

    /// Its next step, with nothing in hand at first, and then with the answer to the call that it asked for.
    fn next(&mut self, reply: Option<Reply>) -> Step<Self::Outcome>
        requires unended { done self.old ≡ false }
        requires answered { IsReplyTo (awaits self.old) (option_map told_view reply) }
        ensures steps { Steps awaits left done self.old self.new result }
        ensures goes { (before talk : Talk) (asked : Option Asked) → fits before self.old talk asked
            → Goes (fits before) (asks (job self.old) before) (ends (job self.old) before) self.new (heard talk asked (option_map told_view reply)) result }
        ensures told { TellsLost lost (option_map told_view reply) result }
        ensures same { job self.new ≡ job self.old };
}
