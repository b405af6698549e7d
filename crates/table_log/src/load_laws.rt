//! Laws of the talks of loads. Each is a function that does nothing, whose contract is the law.
ghost use Rattle.std.specs.Prelude.{◌≡◌, ◌⊎◌, ◌≤◌, ◌∷◌, [], ℕ, List, length, suc};
ghost use Rattle.session_core.specs.Sessions.{AllAsked};
ghost use Rattle.session_core.specs.Shown.{AllReads};
ghost use Rattle.session_core.specs.Talks.{Talk, Told, list_names};
ghost use Rattle.table_log.specs.LoadSessions.{HasListed, LoadAsks, LoadJob};

/// A load only lists the names and gets objects: the names once and first, and then no more objects than names were
/// listed.
pub fn a_load_asks_for_little()
    ensures reads { (job : LoadJob) (before talk : Talk) → AllAsked (LoadAsks job before) [] talk → AllReads talk }
    ensures few { (job : LoadJob) (before talk : Talk) (names : List (List ℕ)) → AllAsked (LoadAsks job before) [] talk → HasListed talk names → length talk ≤ suc (length names) }
    // Where anything was asked for, the names were, and nothing behind them but what was told of them.
    ensures listed { (job : LoadJob) (before talk : Talk) → AllAsked (LoadAsks job before) [] talk
        → (talk ≡ []) ⊎ ((told : Told) × (talk ≡ (list_names, told) ∷ [])) ⊎ ((names : List (List ℕ)) × HasListed talk names) }
{}
