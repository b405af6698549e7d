//! Sessions that are told one answer after another, between which others may put something.

ghost use Rattle.std.specs.Prelude.{◌≡◌, None, Some, false, option_map};
ghost use Rattle.session_core.specs.Talks.{IsReplyTo, asked_view, kind_of, told_view};

use crate::calls::tell_request;
use crate::turns::CaseStore;
use case_words::Transcript;
use session_core::{Reply, Request, Session, Step, ask};
use std::collections::BTreeMap;

/// A session that waits for the answer to a call.
pub struct Waiting<N: Session + Drop> {
    session: N,
    request: Request,
    ghost kind: { N.awaits session ≡ Some (kind_of (asked_view request)) },
    ghost unended: { N.done session ≡ false },
}

impl<N: Session + Drop> Drop for Waiting<N> {
    fn drop(self) {
        let Waiting {
            session: _,
            request: _,
        } = self;
    }
}

impl<N: Session + Drop> Waiting<N> {
    /// The session, and the call that it asks for.
    fn into_parts(self) -> (N, Request)
        ensures kind { N.awaits result.0 ≡ Some (kind_of (asked_view result.1)) }
        ensures unended { N.done result.0 ≡ false }
    {
        let Waiting { session, request } = self;
        (session, request)
    }
}

/// Begins a session, in place of one that waits. Adds what it asks for first, or else tells how it ended.
pub fn begin<N: Session + Drop>(
    waiting: &mut Option<Waiting<N>>,
    session: N,
    told: &mut Transcript,
) -> Option<N::Outcome>
where
    N::Outcome: Drop,
    requires new { N.awaits session ≡ None }
    requires unended { N.done session ≡ false }
{
    *waiting = None;
    go_on(waiting, session, None, told)
}

/// Makes the call that a session asks for; or tells it that memory ran out in that call, which isn't made. Adds what it
/// asks for next, or else tells how it ended.
pub fn step<N: Session + Drop>(
    store: &mut CaseStore,
    waiting: &mut Option<Waiting<N>>,
    is_short: bool,
    told: &mut Transcript,
) -> Option<N::Outcome>
where
    N::Outcome: Drop,
{
    let Some(found) = waiting.take() else {
        told.misspelled();
        return None;
    };
    let (session, request) = found.into_parts();
    let reply = if is_short {
        Reply::Memory
    } else {
        ask(told.alloc, store, request)
    };
    go_on(waiting, session, Some(reply), told)
}

/// Tells a session an answer. It waits where it asks for another call.
fn go_on<N: Session + Drop>(
    waiting: &mut Option<Waiting<N>>,
    session: N,
    reply: Option<Reply>,
    told: &mut Transcript,
) -> Option<N::Outcome>
where
    N::Outcome: Drop,
    requires unended { N.done session ≡ false }
    requires answered { IsReplyTo (N.awaits session) (option_map told_view reply) }
{
    let mut session = session;
    match session.next(reply) {
        Step::Ask(request) => {
            tell_request(&request, told);
            *waiting = Some(Waiting { session, request });
            None
        }
        Step::Done(outcome) => Some(outcome),
    }
}

/// The place of this name, an empty one where none stands. `None` where memory runs out.
pub fn place_of<'m, V: Drop>(
    places: &'m mut BTreeMap<String, Option<V>>,
    name: &str,
    told: &mut Transcript,
) -> Option<&'m mut Option<V>> {
    match places.entry(told.copy_of(name)) {
        Ok(entry) => Some(entry.or_insert(None)),
        Err(_error) => {
            told.lacks_memory();
            None
        }
    }
}
