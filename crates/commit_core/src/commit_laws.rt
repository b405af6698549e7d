//! Laws of a commit's puts as a session: what they may ask for and tell, whatever store bears their talk.
ghost use Rattle.std.specs.Prelude.{◌≡◌, ℕ, ◌+◌, ◌*◌, ◌<◌, ◌≤◌, List, [], ◌∷◌, ◌++◌, length, Result};
ghost use Rattle.store_core.specs.Objects.{Objects};
ghost use Rattle.store_core.specs.declared.store.Put.TheVariants.{Created};
ghost use Rattle.session_core.specs.Sessions.{AllAsked};
ghost use Rattle.session_core.specs.Talks.{Asked, Bears, Talk, put_commit, told_put};
ghost use Rattle.delta_actions.specs.Commit.{IsCommit};
ghost use Rattle.log_laws.specs.TableConflicts.{ReadsItsOwn};
ghost use Rattle.log_laws.specs.Holds.{IsLawfulStore};
ghost use Rattle.log_laws.specs.SoundTables.{IsAdmissible};
ghost use Rattle.commit_core.specs.CommitSessions.{CommitAsks, CommitEnds, CommitJob, HoldsOfCommit, IsCommittedAt, Winner, taken};
ghost use Rattle.commit_core.specs.declared.commit_fault.CommitFault.{CommitFault};
ghost use Rattle.commit_core.specs.declared.commit_state.CommitOutcome.{CommitOutcome};

use log_laws::a_candidate_without_conflict_goes_on;

/// What the puts of a commit may ask for and tell, whatever store bears their talk.
///
/// Where that store is lawful, and the commit may be put in it at the version that is tried first, it may be put at
/// each version that is asked for: it stays admissible past winners that don't conflict with it. That version is the
/// first one, or the one behind the last that was found taken: each version in between was put, was found taken, and
/// what stands there was got. And what is told is so: the winners stand, and behind them the commit, where it is told
/// that it was committed.
pub fn what_a_commit_may()
    ensures asks { (objects : Objects) (job : CommitJob) (before talk : Talk) (version : ℕ) (bytes : List ℕ) → IsLawfulStore objects → Bears objects talk → IsAdmissible objects job.version job.bytes
        → IsCommit job.bytes job.candidate.actions → ReadsItsOwn job.candidate → CommitAsks job before talk (put_commit version bytes) → IsAdmissible objects version bytes }
    ensures versions { (job : CommitJob) (before talk : Talk) (version : ℕ) (bytes : List ℕ) → CommitAsks job before talk (put_commit version bytes)
        → (winners : List Winner) × (talk ≡ taken job.version job.bytes winners) × (version ≡ job.version + length winners) × (length winners < job.tries) }
    ensures tells { (objects : Objects) (job : CommitJob) (before talk : Talk) (result : Result CommitOutcome CommitFault) → Bears objects talk → CommitEnds job before talk result → HoldsOfCommit objects job result }
{
    a_candidate_without_conflict_goes_on();
}

/// Right behind a put that created a commit nothing more is asked for, and nothing is told but that it was committed,
/// as that very version: neither that memory ran out nor any other fault.
pub fn a_created_commit_is_told()
    ensures told { (job : CommitJob) (before talk : Talk) (version : ℕ) (bytes : List ℕ) (result : Result CommitOutcome CommitFault)
        → CommitEnds job before (talk ++ (put_commit version bytes, told_put Created) ∷ []) result → IsCommittedAt version result }
    ensures quiet { (job : CommitJob) (before talk : Talk) (version : ℕ) (bytes : List ℕ) (asked : Asked) → CommitAsks job before (talk ++ (put_commit version bytes, told_put Created) ∷ []) asked → ⊥ }
{}

/// The puts of a commit make two calls at most for each version that they try: a put, and a get where the version is
/// taken.
pub fn a_commit_asks_for_little()
    ensures { (job : CommitJob) (before talk : Talk) → AllAsked (CommitAsks job before) [] talk → length talk ≤ 2 * job.tries }
{}
