//! Laws of a table's creation as a session: what it may ask for and tell, whatever store bears its talk, and what it
//! tells and leaves over a store of its own. Each is a function that does nothing, whose contract is the law.
ghost use Rattle.std.specs.Prelude.{Result};
ghost use Rattle.store_core.specs.Objects.{Objects};
ghost use Rattle.session_core.specs.Stores.{Answers, State, Talked};
ghost use Rattle.session_core.specs.Talks.{Asked, Bears, Talk};
ghost use Rattle.commit_core.specs.CreateSessions.{CreateAsks, CreateEnds, CreateJob, CreatesExactly, MayAskToCreate, MayTellOfCreation};
ghost use Rattle.commit_core.specs.declared.fault.CreateFault.{CreateFault};

/// Whatever store bears the talk of a creation, alone or among others: it asks for nothing but that its own commit is
/// put as version 0, which is admissible there; and what it tells is so there. Where it tells that it created the
/// table, its commit stands.
pub fn what_a_creation_may()
    ensures asks { (objects : Objects) (job : CreateJob) (before talk : Talk) (asked : Asked) → Bears objects talk → CreateAsks job before talk asked → MayAskToCreate objects job talk asked }
    ensures tells { (objects : Objects) (job : CreateJob) (before talk : Talk) (result : Result (Unit {0}) CreateFault) → Bears objects talk → CreateEnds job before talk result
        → MayTellOfCreation objects job talk result }
{}

/// Over a store of a single thread that loses no call, a creation tells and leaves what the rules say: it is refused
/// for the first reason that there is, and nothing is put, or the commit stands as version 0 where none stood.
pub fn a_creation_over_one_store()
    ensures { (job : CreateJob) (before talk : Talk) (result : Result (Unit {0}) CreateFault) (old new : State) → CreateEnds job before talk result → Talked Answers old talk new → CreatesExactly job result old new }
{}
