//! Laws of loads as sessions: what a load tells is so of each sound store that bears its talk, also of one that grew
//! since.

ghost use Rattle.std.specs.Prelude.{◌≡◌, ◌≤◌, ◌⊎◌, ℕ, List, [], ◌∷◌, ◌++◌, None, Ok, Err};
ghost use Rattle.store_core.specs.Objects.{Objects};
ghost use Rattle.session_core.specs.Sessions.{AllAsked};
ghost use Rattle.session_core.specs.Shown.{Shows};
ghost use Rattle.session_core.specs.Talks.{Bears, Talk, get_object, told_object};
ghost use Rattle.delta_actions.specs.Action.{Action};
ghost use Rattle.delta_replay.specs.Snapshots.{IsSnapshotOf};
ghost use Rattle.table_log.specs.Counts.{commit_count, count_in};
ghost use Rattle.table_log.specs.LoadSessions.{HasGap, HasListed, LoadAsks, LoadEnds, LoadJob};
ghost use Rattle.store_core.specs.Names.{commit_name};
ghost use Rattle.table_log.specs.Versions.{commits_in, log_of, versions_from};
ghost use Rattle.table_log.specs.declared.fault.LogFault.TheVariants.{BadLog};
ghost use Rattle.table_log.specs.declared.loading.Loaded.{Loaded};
ghost use Rattle.log_laws.specs.Sound.{IsSoundStore};

/// What a load tells of a sound store that bears its talk and what was known before, whether it restored a checkpoint
/// or not: the snapshot of the first commits of the log, all that stand below the version behind them. So it is also
/// where others put commits while it loaded, or since. Of a store that the talk shows these are all commits, and the
/// version behind them is that behind the newest.
///
/// It tells that a commit is missing or can't be read only where no commit was listed, and that of version 0; or where
/// not all commits below the newest that was listed were listed too; or where it asked for the commit at last and there
/// was none: for whatever is got under the name that a load asks for can be read. Of a store that the talk shows it
/// tells it only where no commit stands, and that of version 0.
pub fn what_a_load_may()
    ensures loaded { (objects : Objects) (job : LoadJob) (before talk : Talk) (loaded : Loaded) → IsSoundStore objects → Bears objects before → Bears objects talk → LoadEnds job before talk (Ok loaded)
        → (log : List (List Action)) × (commits_in 0 (versions_from loaded.next 0 objects) ≡ Ok log) × IsSnapshotOf log loaded.snapshot × (loaded.next ≤ commit_count objects) }
    ensures shown { (objects : Objects) (job : LoadJob) (before talk : Talk) (loaded : Loaded) → IsSoundStore objects → Bears objects before → Shows talk objects → LoadEnds job before talk (Ok loaded)
        → (log : List (List Action)) × (log_of objects ≡ Ok log) × IsSnapshotOf log loaded.snapshot × (loaded.next ≡ commit_count objects) }
    ensures refused { (objects : Objects) (job : LoadJob) (before talk : Talk) (version : ℕ) → IsSoundStore objects → Bears objects before → Bears objects talk → AllAsked (LoadAsks job before) [] talk
        → LoadEnds job before talk (Err (BadLog version))
        → (names : List (List ℕ)) × HasListed talk names
        × (((count_in names ≡ 0) × (version ≡ 0)) ⊎ ((front : Talk) × (talk ≡ front ++ (get_object (commit_name version), told_object None) ∷ [])) ⊎ HasGap names) }
    ensures bad { (objects : Objects) (job : LoadJob) (before talk : Talk) (version : ℕ) → IsSoundStore objects → Bears objects before → Shows talk objects → LoadEnds job before talk (Err (BadLog version))
        → (version ≡ 0) × (commit_count objects ≡ 0) }
{}
