//! Laws of a sink's sessions: what they may ask for and tell, and how many calls and tries they make. Each is a
//! function that does nothing, whose contract is the law.
ghost use Rattle.std.specs.Prelude.{◌≡◌, ◌≤◌, ◌+◌, ◌*◌, ℕ, List, [], ◌∷◌, ◌++◌, false, length, Ok, Err};
ghost use Rattle.store_core.specs.Objects.{Objects};
ghost use Rattle.store_core.specs.declared.store.Put.TheVariants.{Created};
ghost use Rattle.session_core.specs.Sessions.{AllAsked};
ghost use Rattle.session_core.specs.Talks.{Asked, Bears, Talk, list_names, put_commit, put_file, told_names, told_put};
ghost use Rattle.batch_core.specs.declared.fault.SinkFault.TheVariants.{Contended};
ghost use Rattle.sink_core.specs.SinkLaws.{IsBehindRules, IsCommittedIn, IsCommitOfJob, IsFileOfJob, BatchStandsIn, TellsCommit, versions_taken};
ghost use Rattle.sink_core.specs.SinkSessions.{HandsBack, SinkAsks, SinkEnds, SinkJob};
ghost use Rattle.sink_core.specs.declared.sink_state.SinkEnd.{SinkEnd};
ghost use Rattle.sink_core.specs.declared.sink_state.SinkOutcome.TheVariants.{Already};

use commit_core::what_a_commit_may;

/// A session puts no commit but that of its job, to the byte: of a close the one that closes its stream, of an append
/// the one of its batch, with the size of the file that stands under its name in each store that bears the talk and
/// what went before it; and, over such a store, no file but one of the rows that its items spell for a schema that the
/// table had at some version, under the batch's name. A close puts no file. Where it tells that its commit was put,
/// that stands at that version of each store that bears its talk and what went before it, and a batch's file stands
/// there with its rows, for a schema that the table had; where it tells that its batch stands already, such a file
/// stands there too, and the batch's number was the application's last one at some version.
pub fn what_a_sink_may()
    ensures commit { (objects : Objects) (job : SinkJob) (before talk : Talk) (version : ℕ) (bytes : List ℕ) → Bears objects before → Bears objects talk → SinkAsks job before talk (put_commit version bytes) → IsCommitOfJob objects job bytes }
    ensures file { (objects : Objects) (job : SinkJob) (before talk : Talk) (name bytes : List ℕ) → Bears objects before → Bears objects talk → SinkAsks job before talk (put_file name bytes) → IsFileOfJob objects job name bytes }
    ensures committed { (objects : Objects) (job : SinkJob) (before talk : Talk) (end : SinkEnd) (version : ℕ) → Bears objects before → Bears objects talk → SinkEnds job before talk end → TellsCommit end.answer version
        → IsCommittedIn objects job version }
    ensures already { (objects : Objects) (job : SinkJob) (before talk : Talk) (end : SinkEnd) (number : ℕ) → Bears objects before → Bears objects talk → SinkEnds job before talk end → end.answer ≡ Ok (Already number)
        → BatchStandsIn objects job number }
{
    what_a_commit_may();
}

/// Right behind a put that created its commit a session asks for nothing more, and tells nothing but that, with that
/// very version: neither that memory ran out nor any other fault.
pub fn a_created_commit_is_told()
    ensures told { (job : SinkJob) (before talk : Talk) (version : ℕ) (bytes : List ℕ) (end : SinkEnd)
        → SinkEnds job before (talk ++ (put_commit version bytes, told_put Created) ∷ []) end → TellsCommit end.answer version }
    ensures quiet { (job : SinkJob) (before talk : Talk) (version : ℕ) (bytes : List ℕ) (asked : Asked)
        → SinkAsks job before (talk ++ (put_commit version bytes, told_put Created) ∷ []) asked → ⊥ }
{}

/// Where a session tells that it was contended, just as many of its puts of a commit as tries were given found their
/// version taken.
pub fn a_contended_sink_tried_all()
    ensures { (job : SinkJob) (before talk : Talk) (end : SinkEnd) (newest : ℕ) → SinkEnds job before talk end → end.answer ≡ Err (Contended newest) → versions_taken talk ≡ job.tries }
{}

/// With an answer that it tells only behind its rules, a session hands back what it had learnt of the log: what was
/// known at a point to which it came by a front of its talk. With another answer it may hand back less: where its job
/// isn't fine it hands back what was known before; where a commit is missing or can't be read, no commit has the
/// version that it comes to, a call of the load was lost, or memory ran out, maybe nothing.
pub fn a_sink_hands_back_what_it_learnt()
    ensures { (job : SinkJob) (before talk : Talk) (end : SinkEnd) → SinkEnds job before talk end → IsBehindRules end.answer → HandsBack job before talk end.known }
{}

/// A session makes at most as many calls as names were listed, two for each try, and four; where it loads nothing, two
/// for each try, and three.
pub fn a_sink_asks_for_little()
    ensures listed { (job : SinkJob) (before talk rest : Talk) (names : List (List ℕ)) → AllAsked (SinkAsks job before) [] talk → talk ≡ (list_names, told_names names) ∷ rest
        → length talk ≤ length names + 2 * job.tries + 4 }
    ensures known { (job : SinkJob) (before talk : Talk) → AllAsked (SinkAsks job before) [] talk → job.loads ≡ false → length talk ≤ 2 * job.tries + 3 }
{}
