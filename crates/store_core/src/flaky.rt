//! A store that loses calls as it is told to: for cases, and as the store of a world of many actors.
ghost use Rattle.std.specs.Prelude.{◌≡◌, ◌≤◌, ℕ, List, [], Some, None, Ok, length, slice_get, option_map, IfOk, IsErrOf};
ghost use Rattle.store_core.specs.Calls.{CountsFault, CountsOne, RisesByOne, put_told};
ghost use Rattle.store_core.specs.Memory.{stored_object};
ghost use Rattle.store_core.specs.Objects.{object_at};
ghost use Rattle.store_core.specs.Turns.{armed_behind, first_turn, later_turns, puts_sent, turn_of_put, turns_left, HasLandedAs, KeepsTurns, SendsLate};

use crate::naming::is_commit;
use crate::{Names, Put, Store, StoreFault};
use std::alloc::{AllocError, Global};

/// What becomes of a call.
#[derive(Clone, Copy, Debug, PartialEq, Eq)]
pub enum Turn {
    /// It takes effect, and its answer comes.
    Pass,
    /// The request is lost: it has no effect.
    LoseRequest,
    /// It takes effect, and its answer is lost.
    LoseAnswer,
    /// A put is lost and goes in flight: it has no effect yet, and may land later, more than once.
    LandLate,
    /// A put takes effect, and the answer is that of its repetition: that the name stands.
    LandTwice,
}

/// A store over another one whose calls meet these turns, one after the other; past the last turn every call passes. A
/// list or a get that is to land twice passes, and one that is to land late is lost. A call that is lost is counted
/// once, one that the store below loses too.
#[derive(Drop)]
pub struct Flaky<S> {
    alloc: Global,
    /// The store below.
    pub store: S,
    /// The turns, the ones that were met too.
    pub turns: Vec<Turn>,
    /// How many turns were met.
    pub met: usize,
    /// What the next put of a commit's name meets in place of its turn.
    pub armed: Option<Turn>,
    /// The puts that went in flight here, in the order in which they were sent: names with bytes. They stay.
    pub sent: Vec<(String, Vec<u8>)>,
    /// How many calls were lost; at 2^64 - 1 it stays.
    pub lost: u64,
}

impl<S: Store> Flaky<S> {
    /// A store whose first calls meet these turns. What goes in flight lies in this memory.
    pub fn new(alloc: Global, store: S, turns: Vec<Turn>) -> Flaky<S>
        ensures store { result.store ≡ store }
        ensures turns { turns_left result ≡ turns.items }
        ensures unarmed { result.armed ≡ None }
        ensures nothing_sent { puts_sent result ≡ [] }
        ensures none_lost { result.lost ≡ 0 }
    {
        Flaky {
            alloc,
            store,
            turns,
            met: 0,
            armed: None,
            sent: Vec::new(alloc),
            lost: 0,
        }
    }

    /// The next put of a commit's name meets this turn in place of its own, which it uses up too. A turn that was armed
    /// before is forgotten.
    pub fn arm(&mut self, turn: Turn)
        ensures { self.new ≡ record self.old { armed = Some turn } }
    {
        self.armed = Some(turn);
    }

    /// Lets a put in flight take effect, from 0 in the order in which they were sent: `Created` where its name was
    /// absent, `Exists` where it stood and keeps its bytes. It stays in flight. `None` where none of that number is. It
    /// meets no turn. Fails where the store below loses the put or memory runs out. Copies the object's bytes.
    pub fn land(&mut self, number: usize) -> Result<Option<Put>, StoreFault>
        ensures nothing { length (puts_sent self.old) ≤ number → (result ≡ Ok None) × (self.new ≡ self.old) }
        ensures landed { (name bytes : List ℕ) → slice_get (puts_sent self.old) number ≡ Some (name, bytes)
            → HasLandedAs name bytes result (S.objects self.old.store, S.in_flight self.old.store)
            (S.objects self.new.store, S.in_flight self.new.store) }
        ensures told { (name bytes : List ℕ) → slice_get (puts_sent self.old) number ≡ Some (name, bytes)
            → S.is_reliable self.old.store
            → IfOk result (λ told. told ≡ Some (put_told (object_at (S.objects self.old.store) name))) }
        ensures never_lost { S.is_reliable self.old.store → IsErrOf result StoreFault.Lost → ⊥ }
        ensures kept { KeepsTurns self.old self.new }
        ensures faults { CountsOne result self.old.lost self.new.lost }
        ensures passes { (name bytes : List ℕ) → slice_get (puts_sent self.old) number ≡ Some (name, bytes)
            → CountsFault result (S.fault_count self.old.store) (S.fault_count self.new.store) }
        ensures below { S.is_reliable self.old.store → S.is_reliable self.new.store }
    {
        let Some((name, bytes)) = self.copy_of(number)? else {
            return Ok(None);
        };
        let answer = self.store.put_absent(&name, bytes);
        let told = self.counted(answer)?;
        Ok(Some(told))
    }

    /// A copy of a put in flight.
    fn copy_of(&self, number: usize) -> Result<Option<(String, Vec<u8>)>, AllocError>
        ensures none { length (puts_sent self.now) ≤ number → result ≡ Ok None }
        ensures same { IfOk result (λ put. option_map stored_object put ≡ slice_get (puts_sent self.now) number) }
    {
        match self.sent.get(number) {
            Some((name, bytes)) => {
                let name = String::from_str(self.alloc, name)?;
                Ok(Some((name, bytes.to_vec(self.alloc)?)))
            }
            None => Ok(None),
        }
    }

    /// The turn that the next call meets.
    fn next_turn(&mut self) -> Turn
        ensures kept { (self.new.store ≡ self.old.store) × (self.new.lost ≡ self.old.lost) }
        ensures sent { (self.new.sent ≡ self.old.sent) × (self.new.armed ≡ self.old.armed) }
        ensures turn { result ≡ first_turn (turns_left self.old) }
        ensures left { turns_left self.new ≡ later_turns (turns_left self.old) }
    {
        match self.turns.get(self.met) {
            Some(turn) => {
                let turn = *turn;
                self.met += 1;
                turn
            }
            None => Turn::Pass,
        }
    }

    /// The turn that a put of this name meets.
    fn turn_of_put(&mut self, name: &str) -> Turn
        ensures kept { (self.new.store ≡ self.old.store) × (self.new.lost ≡ self.old.lost) }
        ensures sent { self.new.sent ≡ self.old.sent }
        ensures turn { result ≡ turn_of_put self.old.armed (turns_left self.old) name.now }
        ensures armed { self.new.armed ≡ armed_behind self.old.armed name.now }
        ensures left { turns_left self.new ≡ later_turns (turns_left self.old) }
    {
        let turn = self.next_turn();
        if is_commit(name.as_bytes()) {
            self.armed.take().unwrap_or(turn)
        } else {
            turn
        }
    }

    /// One more call is lost. At the greatest number the count stays.
    fn lose(&mut self) -> StoreFault
        ensures lost { result ≡ StoreFault.Lost }
        ensures kept { self.new ≡ record self.old { lost = self.new.lost } }
        ensures counted { RisesByOne self.old.lost self.new.lost }
    {
        self.lost = self.lost.saturating_add(1);
        StoreFault::Lost
    }

    /// An answer of the store below, which may have lost the call too.
    fn counted<T>(&mut self, answer: Result<T, StoreFault>) -> Result<T, StoreFault>
        ensures answer { result ≡ answer }
        ensures kept { self.new ≡ record self.old { lost = self.new.lost } }
        ensures counted { CountsOne result self.old.lost self.new.lost }
    {
        match answer {
            Err(StoreFault::Lost) => Err(self.lose()),
            answer => answer,
        }
    }

    /// A put that goes in flight, behind those that were sent before: it has no effect yet, and `land` lets it take
    /// effect. It is told as lost; or memory runs out, and nothing is sent. It meets no turn.
    pub fn send(&mut self, name: &str, bytes: Vec<u8>) -> Result<Put, StoreFault>
        ensures sent { SendsLate name.now bytes.items result (puts_sent self.old) (puts_sent self.new) }
        ensures kept { (self.new.store ≡ self.old.store) × (turns_left self.new ≡ turns_left self.old) }
        ensures armed { self.new.armed ≡ self.old.armed }
        ensures counted { CountsOne result self.old.lost self.new.lost }
    {
        let name = String::from_str(self.alloc, name)?;
        self.sent.push((name, bytes))?;
        Err(self.lose())
    }
}

/// Each call meets one turn, which is taken off those that are left; a put of a commit's name meets the armed one in
/// its place. Where it passes, or none is left, it answers and leaves what the store below does; what becomes of the
/// other turns is said at each call.
impl<S: Store> Store for Flaky<S> {
    ghost use Rattle.std.specs.Prelude.{◌≢◌, ◌⊎◌, ◌++◌, [], None, Ok, Err, IfOk, OnOk, IsErrOf};
    ghost use Rattle.std.specs.Option.{option_map};
    ghost use Rattle.std.specs.List.Sorted.{IsStrictlySortedBy};
    ghost use Rattle.store_core.specs.Listed.{listed};
    ghost use Rattle.store_core.specs.Objects.{object_at, names_of, name_order};
    ghost use Rattle.store_core.specs.Calls.{CountsFault, CountsOne, HasLanded, HasRisen, MayHaveLanded, IsUntouched, StandsAfter, put_told};
    ghost use Rattle.store_core.specs.Turns.{armed_behind, first_turn, later_turns, puts_sent, turn_of_put, turns_left, IsSoundPut, LosesAnswer, LosesLook, PassesLook, SendsLate, LandsTwice};

    ghost objects = { λ flaky. S.objects flaky.store };

    ghost in_flight = { λ flaky. S.in_flight flaky.store ++ puts_sent flaky };

    ghost fault_count = { λ flaky. flaky.lost };

    ghost is_reliable = { λ flaky. (turns_left flaky ≡ []) × (flaky.armed ≡ None) × S.is_reliable flaky.store };

    ghost makes = { λ _ _. Unit {0} };

    /// Where its turn is neither to pass nor to land twice, it is lost, and the store below isn't asked.
    fn list(&mut self) -> Result<Names, StoreFault>
        ensures names { IfOk result (λ names. listed names ≡ names_of (S.objects self.old.store)) }
        ensures rising { IfOk result (λ names. IsStrictlySortedBy name_order (listed names)) }
        ensures untouched { IsUntouched (S.objects self.old.store, S.in_flight self.old.store ++ puts_sent self.old)
            (S.objects self.new.store, S.in_flight self.new.store ++ puts_sent self.new) }
        ensures faults { CountsOne result self.old.lost self.new.lost }
        ensures turn { turns_left self.new ≡ later_turns (turns_left self.old) }
        ensures own { (self.new.armed ≡ self.old.armed) × (puts_sent self.new ≡ puts_sent self.old) }
        ensures passes { PassesLook (first_turn (turns_left self.old))
            → CountsFault result (S.fault_count self.old.store) (S.fault_count self.new.store) }
        ensures sound { PassesLook (first_turn (turns_left self.old)) → S.is_reliable self.old.store
            → IsErrOf result StoreFault.Lost → ⊥ }
        ensures lost { LosesLook (first_turn (turns_left self.old))
            → (result ≡ Err StoreFault.Lost) × (self.new.store ≡ self.old.store) }
        ensures below { S.is_reliable self.old.store → S.is_reliable self.new.store }
    {
        match self.next_turn() {
            Turn::Pass | Turn::LandTwice => {
                let answer = self.store.list();
                self.counted(answer)
            }
            Turn::LoseRequest | Turn::LoseAnswer | Turn::LandLate => Err(self.lose()),
        }
    }

    /// Where its turn is neither to pass nor to land twice, it is lost, and the store below isn't asked.
    fn get(&mut self, name: &str) -> Result<Option<Vec<u8>>, StoreFault>
        ensures object { IfOk result (λ found. option_map (λ bytes. bytes.items) found
            ≡ object_at (S.objects self.old.store) name.now) }
        ensures untouched { IsUntouched (S.objects self.old.store, S.in_flight self.old.store ++ puts_sent self.old)
            (S.objects self.new.store, S.in_flight self.new.store ++ puts_sent self.new) }
        ensures faults { CountsOne result self.old.lost self.new.lost }
        ensures turn { turns_left self.new ≡ later_turns (turns_left self.old) }
        ensures own { (self.new.armed ≡ self.old.armed) × (puts_sent self.new ≡ puts_sent self.old) }
        ensures passes { PassesLook (first_turn (turns_left self.old))
            → CountsFault result (S.fault_count self.old.store) (S.fault_count self.new.store) }
        ensures sound { PassesLook (first_turn (turns_left self.old)) → S.is_reliable self.old.store
            → IsErrOf result StoreFault.Lost → ⊥ }
        ensures lost { LosesLook (first_turn (turns_left self.old))
            → (result ≡ Err StoreFault.Lost) × (self.new.store ≡ self.old.store) }
        ensures below { S.is_reliable self.old.store → S.is_reliable self.new.store }
    {
        match self.next_turn() {
            Turn::Pass | Turn::LandTwice => {
                let answer = self.store.get(name);
                self.counted(answer)
            }
            Turn::LoseRequest | Turn::LoseAnswer | Turn::LandLate => Err(self.lose()),
        }
    }

    /// A request that is lost never reaches the store below, nor does one that goes in flight. Where the answer is
    /// lost, the put has landed, or the store below lost it too; or memory ran out there, and is told as that. A put
    /// that is to land twice is sent once, and told that its name stands: so a repetition would be told, which would
    /// change nothing.
    fn put_absent(&mut self, name: &str, bytes: Vec<u8>) -> Result<Put, StoreFault>
        ensures created { result ≡ Ok Put.Created → object_at (S.objects self.old.store) name.now ≡ None }
        ensures stands { IfOk result (λ put. StandsAfter put bytes.items (object_at (S.objects self.new.store) name.now)) }
        ensures landed { OnOk result (HasLanded name.now bytes.items
            (S.objects self.old.store, S.in_flight self.old.store ++ puts_sent self.old)
            (S.objects self.new.store, S.in_flight self.new.store ++ puts_sent self.new)) }
        ensures lost { IsErrOf result StoreFault.Lost → MayHaveLanded name.now bytes.items
            (S.objects self.old.store, S.in_flight self.old.store ++ puts_sent self.old)
            (S.objects self.new.store, S.in_flight self.new.store ++ puts_sent self.new) }
        ensures memory { IsErrOf result StoreFault.Memory → IsUntouched
            (S.objects self.old.store, S.in_flight self.old.store ++ puts_sent self.old)
            (S.objects self.new.store, S.in_flight self.new.store ++ puts_sent self.new) }
        ensures faults { CountsOne result self.old.lost self.new.lost }
        ensures turn { turns_left self.new ≡ later_turns (turns_left self.old) }
        ensures armed { self.new.armed ≡ armed_behind self.old.armed name.now }
        ensures passes { turn_of_put self.old.armed (turns_left self.old) name.now ≡ Turn.Pass
            → CountsFault result (S.fault_count self.old.store) (S.fault_count self.new.store) }
        ensures sound { turn_of_put self.old.armed (turns_left self.old) name.now ≡ Turn.Pass
            → S.is_reliable self.old.store → IsSoundPut (object_at (S.objects self.old.store) name.now) result }
        ensures request { turn_of_put self.old.armed (turns_left self.old) name.now ≡ Turn.LoseRequest
            → (result ≡ Err StoreFault.Lost) × (self.new.store ≡ self.old.store) }
        ensures answer { turn_of_put self.old.armed (turns_left self.old) name.now ≡ Turn.LoseAnswer
            → LosesAnswer (HasLanded name.now bytes.items
            (S.objects self.old.store, S.in_flight self.old.store) (S.objects self.new.store, S.in_flight self.new.store))
            ((S.is_reliable self.old.store → ⊥) × HasRisen (S.fault_count self.old.store) (S.fault_count self.new.store)) result }
        ensures late { turn_of_put self.old.armed (turns_left self.old) name.now ≡ Turn.LandLate
            → SendsLate name.now bytes.items result (puts_sent self.old) (puts_sent self.new)
            × (self.new.store ≡ self.old.store) }
        ensures twice { turn_of_put self.old.armed (turns_left self.old) name.now ≡ Turn.LandTwice
            → LandsTwice ((S.is_reliable self.old.store → ⊥)
            × HasRisen (S.fault_count self.old.store) (S.fault_count self.new.store)) result }
        ensures sent { turn_of_put self.old.armed (turns_left self.old) name.now ≢ Turn.LandLate
            → puts_sent self.new ≡ puts_sent self.old }
        ensures below { S.is_reliable self.old.store → S.is_reliable self.new.store }
    {
        match self.turn_of_put(name) {
            Turn::Pass => {
                let answer = self.store.put_absent(name, bytes);
                self.counted(answer)
            }
            Turn::LoseRequest => Err(self.lose()),
            Turn::LoseAnswer => {
                let answer = self.store.put_absent(name, bytes);
                match answer {
                    Ok(_put) => Err(self.lose()),
                    answer => self.counted(answer),
                }
            }
            Turn::LandLate => self.send(name, bytes),
            Turn::LandTwice => {
                let answer = self.store.put_absent(name, bytes);
                match answer {
                    // The repetition meets the name, which stands now, and changes nothing.
                    Ok(_put) => Ok(Put::Exists),
                    answer => self.counted(answer),
                }
            }
        }
    }

    fn faults(&self) -> u64 {
        self.lost
    }

    ghost in_order = { λ flaky. S.in_order flaky.store };
}
