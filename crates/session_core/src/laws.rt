//! Laws of talks and stores. Each is a function that does nothing, whose contract is the law.
ghost use Rattle.std.specs.Prelude.{◌≡◌, ◌++◌, ◌∷◌, [], ℕ, List};
ghost use Rattle.store_core.specs.Calls.{IsUntouched};
ghost use Rattle.store_core.specs.Objects.{Objects, HasObjectsOf, names_of};
ghost use Rattle.session_core.specs.Shown.{AllReads, AllStand, IsExact, Shows};
ghost use Rattle.session_core.specs.Stores.{Answers, MayAnswer, MayAnswerAmid, State, Talked};
ghost use Rattle.session_core.specs.Talks.{Asked, Bears, IsBorne, Talk, Told, list_names, told_names};

/// What the objects of a store bear, those of each store bear that has them all and maybe more: a talk stays borne
/// while a store grows.
pub fn what_is_borne_stays_borne()
    ensures answer { (objects more : Objects) (asked : Asked) (told : Told) → HasObjectsOf objects more → IsBorne objects asked told → IsBorne more asked told }
    ensures talk { (objects more : Objects) (talk : Talk) → HasObjectsOf objects more → Bears objects talk → Bears more talk }
{}

/// A store has what its answers told, also one that loses calls, and into which others put something between the calls:
/// it bears the talk, and it has all that it had before.
pub fn a_talk_is_borne()
    ensures grown { (old new : State) (talk : Talk) → Talked MayAnswerAmid old talk new → HasObjectsOf old.0 new.0 }
    ensures borne { (old new : State) (talk : Talk) → Talked MayAnswerAmid old talk new → Bears new.0 talk }
    // where nobody else puts something, too
    ensures alone { (old new : State) (talk : Talk) → Talked MayAnswer old talk new → Talked MayAnswerAmid old talk new }
{}

/// Two talks that a store bears, it bears one behind the other.
pub fn what_is_borne_twice_is_borne_at_once()
    ensures { (objects : Objects) (talk more : Talk) → Bears objects talk → Bears objects more → Bears objects (talk ++ more) }
{}

/// What a store answers that loses no call, any store may answer.
pub fn a_store_answers_as_any_store_may()
    ensures { (old new : State) (talk : Talk) → Talked Answers old talk new → Talked MayAnswer old talk new }
{}

/// Lists and gets change nothing, and what they are told of a store they show of it. A store bears what is shown of it.
pub fn what_is_read_is_shown()
    ensures untouched { (old new : State) (talk : Talk) → AllReads talk → Talked MayAnswer old talk new → IsUntouched old new }
    ensures shown { (old new : State) (talk : Talk) → AllReads talk → Talked MayAnswer old talk new → Shows talk old.0 }
    ensures borne { (objects : Objects) (talk : Talk) → Shows talk objects → Bears objects talk }
{}

/// A talk that goes on with a call shows what it showed, and what was told of that call.
pub fn what_a_longer_talk_shows()
    ensures { (objects : Objects) (talk : Talk) (asked : Asked) (told : Told) → Shows (talk ++ (asked, told) ∷ []) objects → Shows talk objects × IsExact objects asked told }
{}

/// A store that grows, also by others' puts between the calls, is shown as it was when the names were listed, where
/// what is got behind that stood then.
pub fn what_grows_is_shown_as_it_was_listed()
    ensures { (listed : Objects) (old new : State) (gets : Talk) (names : List (List ℕ)) → names ≡ names_of listed → HasObjectsOf listed old.0
        → AllStand gets listed → Talked MayAnswerAmid old gets new → Shows ((list_names, told_names names) ∷ gets) listed }
{}
