//! Laws of the talks of reads. Each is a function that does nothing, whose contract is the law.
ghost use Rattle.std.specs.Prelude.{◌≡◌, ◌∷◌, [], ℕ, List};
ghost use Rattle.store_core.specs.Objects.{Objects, HasObjectsOf, IsInOrder, names_of};
ghost use Rattle.session_core.specs.Sessions.{AllAsked};
ghost use Rattle.session_core.specs.Shown.{AllReads, Shows};
ghost use Rattle.session_core.specs.Stores.{MayAnswerAmid, State, Talked};
ghost use Rattle.session_core.specs.Talks.{Bears, Talk, list_names, told_names};
ghost use Rattle.source_core.specs.SourceSessions.{AreListedOnce, HasNewFiles, SourceAsks, SourceJob};

/// A read only lists names and gets objects. Where it listed the names, it is shown the store as that stood then,
/// whatever others put behind the list: each object that it gets stood then, if the files that the log adds did. A store
/// lists each of its names once.
pub fn what_a_read_is_shown()
    ensures once { (objects : Objects) → IsInOrder objects → AreListedOnce (names_of objects) }
    ensures reads { (job : SourceJob) (before talk : Talk) → AllAsked (SourceAsks job before) [] talk → AllReads talk }
    ensures shown { (job : SourceJob) (before gets : Talk) (names : List (List ℕ)) (listed : Objects) (old new : State) → AllAsked (SourceAsks job before) [] ((list_names, told_names names) ∷ gets)
        → names ≡ names_of listed → Bears listed before → HasNewFiles job.place.version listed → HasObjectsOf listed old.0 → Talked MayAnswerAmid old gets new
        → Shows ((list_names, told_names names) ∷ gets) listed }
{}
