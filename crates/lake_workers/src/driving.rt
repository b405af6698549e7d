//! The loop that drives the session of a job through a seat.

ghost use Rattle.std.specs.Prelude.{◌≡◌, [], true, false, None};
ghost use Rattle.store_core.specs.Objects.{Objects};
ghost use Rattle.session_core.specs.Talks.{Bears, Talk};
ghost use Rattle.table_jobs.specs.Jobs.{IsValidJob};
ghost use Rattle.table_jobs.specs.Sessions.{SessionFits, awaited, is_ended, job_of};
ghost use Rattle.log_hub.specs.Seats.{MayStand};
ghost use Rattle.lake_workers.specs.Driving.{IsDriven};

use crate::asking::ask;
use crate::driven::Driven;
use log_hub::{Hub, Naming, Seat};
use session_core::{Request, Session, Step};
use session_laws::what_a_session_may;
use std::alloc::Global;
use std::sync::Wait;
use table_jobs::JobSession;

/// Drives the session of a job to its end through a seat: makes each call that it asks for, and tells it the answer;
/// where the log that the seat has seen has a commit of its version already, it gets that one in place of the put. The
/// session may begin with what is known from calls before, where every store bears these that may stand.
///
/// A call is made of the store as it stands then; between two of them others may make theirs. None is lost, and where
/// memory runs out in one the session is told so. A commit is put right behind the log that the seat has seen, a
/// checkpoint where that has its version: first more commits are read. Each call waits while another seat has the book.
pub fn drive<'r, J: Naming, R: Wait>(
    alloc: Global,
    rt: &R,
    hub: &Hub<J>,
    seat: &mut Seat<J>,
    session: &mut JobSession<'r>,
) -> Driven
    requires new { awaited session.old ≡ None }
    requires unended { is_ended session.old ≡ false }
    requires valid { IsValidJob (job_of session.old) }
    requires fits { (before : Talk) × SessionFits before session.old [] None × ((objects : Objects) → MayStand objects seat.old → Bears objects before) }
    ensures driven { (before : Talk) → SessionFits before session.old [] None → ((objects : Objects) → MayStand objects seat.old → Bears objects before)
        → IsDriven before (job_of session.old) seat.old seat.new result }
    ensures ended { is_ended session.new ≡ true }
    ensures same { job_of session.new ≡ job_of session.old }
{
    drive_with(alloc, rt, hub, seat, session, |_request| {})
}

/// The same, but that `before` is called in front of each request and is shown it (no clause says that it is): a case
/// lets another seat make its calls there.
pub fn drive_with<'r, J: Naming, R: Wait, F: FnMut(&Request)>(
    alloc: Global,
    rt: &R,
    hub: &Hub<J>,
    seat: &mut Seat<J>,
    session: &mut JobSession<'r>,
    mut before: F,
) -> Driven
    requires callable { F.IsAlwaysCallable before }
    requires new { awaited session.old ≡ None }
    requires unended { is_ended session.old ≡ false }
    requires valid { IsValidJob (job_of session.old) }
    requires fits { (before : Talk) × SessionFits before session.old [] None × ((objects : Objects) → MayStand objects seat.old → Bears objects before) }
    ensures driven { (before : Talk) → SessionFits before session.old [] None → ((objects : Objects) → MayStand objects seat.old → Bears objects before)
        → IsDriven before (job_of session.old) seat.old seat.new result }
    ensures ended { is_ended session.new ≡ true }
    ensures same { job_of session.new ≡ job_of session.old }
{
    let mut reply = None;
    let mut receipt = None;
    'calls: loop {
        what_a_session_may();
        match session.next(reply) {
            Step::Done(end) => return Driven { end, receipt },
            Step::Ask(request) => {
                before(&request);
                let answer = ask(alloc, rt, hub, seat, request);
                reply = Some(answer.reply);
                receipt = answer.receipt;
            }
        }
    }
}
