//! Laws of the put of a checkpoint as a session. Each is a function that does nothing, whose contract is the law.

ghost use Rattle.std.specs.Prelude.{◌≡◌, ◌≤◌, ◌+◌, ℕ, List, [], ◌∷◌, length};
ghost use Rattle.store_core.specs.Objects.{Objects};
ghost use Rattle.session_core.specs.Sessions.{AllAsked};
ghost use Rattle.session_core.specs.Talks.{Bears, Talk, list_names, told_names};
ghost use Rattle.table_log.specs.Loads.{IsFront};
ghost use Rattle.table_log.specs.LoadSessions.{LoadJob};
ghost use Rattle.snapshot_core.specs.CheckpointSessions.{CheckpointAsks, CheckpointEnds};
ghost use Rattle.snapshot_core.specs.declared.checkpoint_session.CheckpointEnd.{CheckpointEnd};

/// The put of a checkpoint asks for the names, then for no more objects than there were names, and then for one put at
/// most.
pub fn a_checkpoint_asks_for_little()
    ensures few { (job : LoadJob) (before talk rest : Talk) (names : List (List ℕ)) → AllAsked (CheckpointAsks job before) [] talk → talk ≡ (list_names, told_names names) ∷ rest
        → length talk ≤ 2 + length names }
{}

/// What is known behind the put of a checkpoint, however it ended, stands in each store that bears what was told: it is
/// the snapshot of the log's first versions, or of a checkpoint that stands there and of the commits behind it.
pub fn what_is_known_stands()
    ensures front { (job : LoadJob) (before talk : Talk) (end : CheckpointEnd) → CheckpointEnds job before talk end
        → (objects : Objects) → Bears objects before → Bears objects talk → IsFront objects end.known }
{}
