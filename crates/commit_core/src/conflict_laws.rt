//! Laws of which commits conflict with a candidate. Each is a function that does nothing, whose contract is the law.
ghost use Rattle.std.specs.Prelude.{◌≢◌, ℕ, List, [], ◌∷◌};
ghost use Rattle.std.specs.List.{Contains};
ghost use Rattle.std.specs.Str.{IsUtf8};
ghost use Rattle.delta_actions.specs.Action.{Action};
ghost use Rattle.delta_actions.specs.Names.{stream_domain};
ghost use Rattle.table_model.specs.Table.{close, group, Batch};
ghost use Rattle.log_laws.specs.TableCommits.{without_commit_info, StandFor};
ghost use Rattle.log_laws.specs.TableConflicts.{Conflicts, ReadsItsOwn};
ghost use Rattle.log_laws.specs.TableSchema.{Schema};
ghost use Rattle.commit_core.specs.Candidates.{reading};
ghost use Rattle.commit_core.specs.Conflicts.{candidate_view};
ghost use Rattle.commit_core.specs.declared.candidate.Candidate.{Candidate};

/// Each candidate reads what it is to: each application that it has a `txn` of, and the domain of that one's close. So
/// `log_laws::a_candidate_without_conflict_goes_on` asks nothing more of it.
pub fn a_candidate_reads_its_own()
    ensures { (candidate : Candidate) → ReadsItsOwn (candidate_view candidate) }
{}

/// The commit of batches that reads no more than it has to doesn't conflict with a commit of other applications'
/// batches, nor with one that closes another application's stream, whatever the schemas are. The commit of a close that
/// reads the domain of its own close, and nothing else, doesn't conflict with a commit of batches, nor with one that
/// closes another application's stream.
pub fn other_streams_do_not_conflict()
    ensures batch { (schema other : Schema) (bs cs : List Batch) (made won : List Action) → StandFor schema (group bs) (without_commit_info made) → StandFor other (group cs) (without_commit_info won)
        → ((b c : Batch) → Contains bs b → Contains cs c → IsUtf8 b.application × IsUtf8 c.application × (b.application ≢ c.application)) → Conflicts (reading made [] []) won → ⊥ }
    ensures closed { (schema other : Schema) (bs : List Batch) (application : List ℕ) (made won : List Action) → StandFor schema (group bs) (without_commit_info made) → StandFor other (close application) (without_commit_info won)
        → ((b : Batch) → Contains bs b → IsUtf8 b.application × (b.application ≢ application)) → Conflicts (reading made [] []) won → ⊥ }
    ensures close_batch { (schema other : Schema) (application : List ℕ) (cs : List Batch) (made won : List Action) → StandFor schema (close application) (without_commit_info made)
        → StandFor other (group cs) (without_commit_info won) → Conflicts (reading made [] (stream_domain application ∷ [])) won → ⊥ }
    ensures close_closed { (schema other : Schema) (application another : List ℕ) (made won : List Action) → StandFor schema (close application) (without_commit_info made)
        → StandFor other (close another) (without_commit_info won) → application ≢ another → Conflicts (reading made [] (stream_domain application ∷ [])) won → ⊥ }
{}
