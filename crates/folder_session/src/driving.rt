//! The loop that drives a session over a folder.
ghost use Rattle.std.specs.Prelude.{◌≡◌, [], false, true, None, IfOk, MatchResult};
ghost use Rattle.session_core.specs.Shown.{IsRead};
ghost use Rattle.session_core.specs.Talks.{Asked, Talk};
ghost use Rattle.table_folder.specs.Faults.{CountsLoad, IsNotLoaded};
ghost use Rattle.table_folder.specs.Traces.{Traced};
ghost use Rattle.front_reads.specs.Fronts.{visible};
ghost use Rattle.folder_session.specs.Driving.{AreNames, ReadsBy};
ghost use Rattle.folder_session.specs.Visible.{StopsVisible, TalksVisible, given_names};

use crate::asking::ask;
use session_core::{Session, Step};
use std::alloc::Global;
use table_folder::{Folder, LoadFault};

/// Drives a session that only reads over a folder's files to its end, or over what is visible of them in front of a
/// version: makes each call that it asks for, and tells it the answer. Where a call fails the fault is that call's, and
/// the session is left where it waits for its answer.
///
/// Where the session asks for the names it is told those that were listed before, if they are given, and else the
/// folder is listed. A file is opened where it asks for that one and it is visible. Beside that and the session, the
/// time is linear in the names, and else constant for each call.
pub(crate) fn drive_visible<F: Folder, N: Session>(
    alloc: Global,
    folder: &mut F,
    names: Option<Vec<String>>,
    front: Option<u64>,
    session: &mut N,
) -> Result<N::Outcome, LoadFault>
    requires new { N.awaits session.old ≡ None }
    requires unended { N.done session.old ≡ false }
    requires reads { (before talk : Talk) (asked : Asked) → N.asks (N.job session.old) before talk asked → IsRead asked }
    // Over a steady folder it was driven by a talk that shows the folder's objects, as far as they are visible.
    ensures driven { F.is_steady folder.old → AreNames names (F.objects folder.old) → (before : Talk) → N.fits before session.old [] None
        → IfOk result (λ outcome. ReadsBy N.asks N.ends (N.job session.old) (N.left session.old) before outcome (visible front (F.objects folder.old))) }
    // Over any folder, whoever else writes into it, it was driven by a talk of its own, in which it was told what the
    // folder's calls told, as far as it is visible, or up to a call that failed. No other call is made of the folder.
    ensures talks { (before : Talk) → N.fits before session.old [] None → MatchResult result
        (λ outcome. TalksVisible N.asks N.ends (λ calls. Traced F.makes folder.old calls folder.new) front (given_names names) (N.job session.old) (N.left session.old) before outcome)
        (λ _. StopsVisible N.asks (λ calls. Traced F.makes folder.old calls folder.new) front (given_names names) (N.job session.old) (N.left session.old) before) }
    ensures ended { IfOk result (λ outcome. N.done session.new ≡ true) }
    ensures same { N.job session.new ≡ N.job session.old }
    ensures never_lost { IfOk result (λ outcome. N.lost outcome ≡ false) }
    ensures untouched { F.is_steady folder.old → F.objects folder.new ≡ F.objects folder.old }
    ensures steady { F.is_steady folder.old → F.is_steady folder.new }

    ensures faults { CountsLoad result (F.fault_count folder.old) (F.fault_count folder.new) }
    ensures never_fails { F.is_reliable folder.old → IsNotLoaded result → ⊥ }
    ensures stays_reliable { F.is_reliable folder.old → F.is_reliable folder.new }
{
    let mut names = names;
    let mut reply = None;
    'calls: loop {
        match session.next(reply) {
            Step::Done(outcome) => return Ok(outcome),
            Step::Ask(request) => reply = Some(ask(alloc, folder, &mut names, front, request)?),
        }
    }
}
