//! The loop that drives a session over a store.
ghost use Rattle.std.specs.Prelude.{◌≡◌, [], true, false, None};
ghost use Rattle.session_core.specs.Sessions.{Drives};
ghost use Rattle.session_core.specs.Stores.{MakesCall, Talked};
ghost use Rattle.session_core.specs.Talks.{Talk};

use crate::asking::ask;
use crate::session::{Session, Step};
use std::alloc::Global;
use store_core::Store;

/// Drives a session over a store to its end: makes each call that it asks for, and tells it the answer.
///
/// What becomes of the store is what the calls of the talk do, and nothing else. Where there is no memory for a
/// commit's name, the session is told so, and the store isn't asked. The time beside that of the store and the session
/// is constant for each call.
pub fn drive<S: Store, N: Session>(alloc: Global, store: &mut S, session: &mut N) -> N::Outcome
    requires new { N.awaits session.old ≡ None }
    requires unended { N.done session.old ≡ false }
    ensures driven { (before : Talk) → N.fits before session.old [] None
        → Drives N.asks N.ends N.lost (λ talk. Talked (MakesCall S.makes) store.old talk store.new) (S.is_reliable store.old) (N.job session.old) (N.left session.old) before result
        (S.objects store.old, S.in_flight store.old) (S.objects store.new, S.in_flight store.new)
        (S.fault_count store.old) (S.fault_count store.new) }
    ensures reliable { S.is_reliable store.old → S.is_reliable store.new }
    ensures ended { N.done session.new ≡ true }
    ensures same { N.job session.new ≡ N.job session.old }
{
    let mut reply = None;
    'calls: loop {
        match session.next(reply) {
            Step::Done(outcome) => return outcome,
            Step::Ask(request) => reply = Some(ask(alloc, store, request)),
        }
    }
}
