//! A world: a store, and the actors that act on it.

ghost use Rattle.std.specs.Prelude.{◌≡◌, ◌<◌, ◌||◌, [], Bool, None, OnErr, OnOk, Some, false, true};
ghost use Rattle.std.specs.BTreeMap.{IsUnchanged, Updates};
ghost use Rattle.std.specs.Ordering.{nat_cmp};
ghost use Rattle.store_core.specs.Turns.{turns_left};
ghost use Rattle.stream_model.specs.Events.{act, begin, die, land};
ghost use Rattle.log_reading.specs.declared.log_cache.LogCache as caches;
ghost use Rattle.session_core.specs.Talks.{Bears, Talk};
ghost use Rattle.table_jobs.specs.Jobs.{CanBegin, Job as Handed};
ghost use Rattle.table_jobs.specs.Sessions.{SessionFits, awaited, is_ended, job_of};
ghost use Rattle.table_log.specs.Loads.{IsFront};
ghost use Rattle.stream_world.specs.Standing.{landing_out, told_wants};
ghost use Rattle.stream_model.specs.Worlds as worlds;

use crate::acting;
use crate::actor::{Actor, Hand};
use crate::event::{Event, How};
use log_reading::LogCache;
use std::alloc::{AllocError, Global};
use std::collections::BTreeMap;
use std::mem;
use store_core::{Flaky, Put, Store, StoreFault};
use table_jobs::{Job, JobEnd, JobSession};
use table_log::Loaded;

/// Actors that act on one store, which keeps the puts in flight. An actor that waits takes no time. An event takes the
/// time of the step or the call that it is, with what it drops or copies, and the logarithm of how many actors there
/// were.
#[derive(Drop)]
pub struct World<S> {
    pub(crate) alloc: Global,
    /// The store, with the puts in flight.
    pub store: Flaky<S>,
    /// By number, each actor whose session hasn't ended. A place may be empty.
    pub actors: BTreeMap<u64, Option<Actor>>,
    /// What is known of the log, for sessions that begin with it.
    pub known: Loaded,
    /// Whether memory ran out in an event, or a session told want of memory or of a smaller object.
    pub is_short: bool,
}

/// Either of the two.
fn either(one: bool, other: bool) -> bool
    ensures { result ≡ (one || other) }
{
    one || other
}

/// Whether memory ran out in a landing.
fn is_out_of_memory(landed: &Result<Option<Put>, StoreFault>) -> bool
    ensures { result ≡ landing_out landed.now }
{
    matches!(landed, Err(StoreFault::Memory))
}

/// Whether what was told, if anything was, tells that a growth was refused, or that an object would have passed 64 MiB.
fn tells_short(told: &Option<JobEnd>) -> bool
    ensures { result ≡ told_wants told.now }
{
    match told {
        Some(end) => end.is_short(),
        None => false,
    }
}

/// An actor takes its place, which an older one may have had. Fails where there is no memory for a new place, and
/// changes nothing then.
fn take_place(
    actors: &mut BTreeMap<u64, Option<Actor>>,
    actor: u64,
    begun: Actor,
) -> Result<(), AllocError>
    ensures updates { OnOk result (Updates nat_cmp actors.old actors.new actor (Some (Some begun))) }
    ensures err { OnErr result (IsUnchanged actors.old actors.new) }
{
    // Not by `insert`, whose result has an actor in either of two ways: Rattle's own compiler counts the parts of both,
    // and takes no type of more than 8,192.
    *actors.entry(actor)?.or_insert(None) = Some(begun);
    Ok(())
}

impl<S: Store> World<S> {
    ghost use Rattle.stream_world.specs.EventViews.{event_view, how_view};
    ghost use Rattle.table_jobs.specs.Views.{job_view, with_known};
    ghost use Rattle.stream_world.specs.Left.{asks_call, calls_left, takes_step};
    ghost use Rattle.stream_world.specs.OverAnyStore.{AsksStore, WorldMeets};
    ghost use Rattle.stream_model.specs.Worlds.{IsBegunAs, first_world};
    ghost use Rattle.stream_world.specs.Standing.{BeginsAs, BeginsKnowing, HasHappened, LandsAs, PlacesAs, SlotDoes, StepsTo, WorldStands, slot_at, taking};

    /// A world over a store, in which nobody acts yet and no put was sent.
    pub fn new(alloc: Global, store: S) -> World<S>
        ensures store { result.store.store ≡ store }
        ensures stands { WorldStands S.objects result (first_world (S.objects store)) }
        ensures quiet { (turns_left result.store ≡ []) × (result.store.armed ≡ None) }
        ensures unshort { result.is_short ≡ false }
    {
        World {
            alloc,
            store: Flaky::new(alloc, store, Vec::new(alloc)),
            actors: BTreeMap::new(alloc),
            known: Loaded::new(alloc),
            is_short: false,
        }
    }

    /// Whether want of memory was told, or of a smaller object than a commit, a data file or a checkpoint of more than
    /// 64 MiB: of a beginning, a call or a landing, or by a session at its end. Where it says no, just those events
    /// happened that were handed in, over a store that loses no call.
    pub fn short(&self) -> bool
        ensures { result ≡ self.now.is_short }
    {
        self.is_short
    }

    /// Lets an event happen, and returns what a session told that ended by it. An event that doesn't fit changes
    /// nothing. Fails where memory runs out in a beginning or a landing, and then nothing has happened; in a call that
    /// is made, the session is told so. A landing that the store loses tells nothing.
    pub fn step(&mut self, event: Event) -> Result<Option<JobEnd>, AllocError>
        ensures happens { S.is_reliable self.old.store.store → (w : worlds.World) → WorldStands S.objects self.old w → StepsTo S.objects self.old.is_short w (event_view event) result self.new }
        ensures reliable { S.is_reliable self.old.store.store → S.is_reliable self.new.store.store }
    {
        match event {
            Event::Begin { actor, job } => {
                self.begin(actor, job)?;
                Ok(None)
            }
            Event::Die { actor } => {
                self.die(actor);
                Ok(None)
            }
            Event::Act { actor, how } => {
                self.act(actor, how);
                Ok(None)
            }
            Event::Answer { actor } => Ok(self.go_on(actor, false)),
            Event::LoseAnswer { actor } => Ok(self.go_on(actor, true)),
            Event::Land { place } => match self.land(place) {
                Ok(_put) => Ok(None),
                Err(StoreFault::Memory) => Err(AllocError),
                Err(StoreFault::Lost) => Ok(None),
            },
        }
    }

    /// An actor begins a session that knows nothing of the log, in place of an older one; nothing is asked for yet. Fails
    /// where memory runs out, and then nothing has happened.
    pub fn begin(&mut self, actor: u64, job: Job<'static>) -> Result<(), AllocError>
        ensures happens { (w : worlds.World) → WorldStands S.objects self.old w → BeginsAs S.objects self.old.is_short w (begin actor (job_view job.entry)) result self.new }
        // Every job of the code can begin.
        ensures can { CanBegin (job_view job.entry) }
        ensures store { self.new.store ≡ self.old.store }
    {
        let session = JobSession::new(self.alloc, job);
        self.place(actor, session)
    }

    /// The same, but that an append, a close, a checkpoint or a load begins with what is known of the log, and takes it. So
    /// where memory runs out less may be known.
    pub fn begin_knowing(&mut self, actor: u64, job: Job<'static>) -> Result<(), AllocError>
        ensures happens { (w : worlds.World) → WorldStands S.objects self.old w → BeginsKnowing S.objects self.old.is_short w actor (job_view job.entry) result self.new }
        ensures can { CanBegin (job_view job.entry) }
        ensures store { self.new.store ≡ self.old.store }
        // With what was known, and else with nothing.
        ensures knows { OnOk result ((cache : caches.LogCache) → cache.loaded ≡ self.old.known → cache.log.standing.items ≡ [] → SlotDoes (slot_at self.new actor) (with_known cache (job_view job.entry))) }
    {
        let mut cache = LogCache::new(self.alloc);
        cache.loaded = self.forget();
        let session = JobSession::behind(self.alloc, job, &mut cache);
        // What the job doesn't need stays known.
        self.learn(mem::replace(&mut cache.loaded, Loaded::new(self.alloc)));
        self.place(actor, session)
    }

    /// A session that has asked for nothing yet is an actor's from now on.
    fn place(&mut self, actor: u64, session: JobSession<'static>) -> Result<(), AllocError>
        requires unended { is_ended session ≡ false }
        requires new { awaited session ≡ None }
        ensures places { (w : worlds.World) (job : Handed) (before : Talk) → WorldStands S.objects self.old w → CanBegin job → IsBegunAs job (job_of session.entry) → Bears w.objects before → SessionFits before session.entry [] None
            → PlacesAs S.objects self.old.is_short w actor job (job_of session.entry) before result self.new }
        ensures store { self.new.store ≡ self.old.store }
        ensures slot { OnOk result (SlotDoes (slot_at self.new actor) (job_of session.entry)) }
    {
        let begun = Actor {
            session,
            hand: Hand::Fresh,
        };
        match take_place(&mut self.actors, actor, begun) {
            Ok(()) => Ok(()),
            Err(error) => {
                self.is_short = true;
                Err(error)
            }
        }
    }

    /// What is known of the log; nothing is known of it from then on.
    pub fn forget(&mut self) -> Loaded
        ensures known { result ≡ self.old.known }
        ensures stands { (w : worlds.World) → WorldStands S.objects self.old w → WorldStands S.objects self.new w }
        ensures same { (self.new.store ≡ self.old.store) × (self.new.actors ≡ self.old.actors) × (self.new.is_short ≡ self.old.is_short) }
    {
        let nothing = Loaded::new(self.alloc);
        mem::replace(&mut self.known, nothing)
    }

    /// This is known of the log from now on: what an append, a close or a checkpoint knew when it ended, say.
    pub fn learn(&mut self, known: Loaded)
        ensures known { self.new.known ≡ known }
        ensures stands { (w : worlds.World) → WorldStands S.objects self.old w → IsFront (S.objects self.old.store.store) known → WorldStands S.objects self.new w }
        ensures same { (self.new.store ≡ self.old.store) × (self.new.actors ≡ self.old.actors) × (self.new.is_short ≡ self.old.is_short) }
    {
        self.known = known;
    }

    /// An actor's session is dropped.
    pub fn die(&mut self, actor: u64)
        ensures happens { (w : worlds.World) → WorldStands S.objects self.old w → HasHappened S.objects self.old.is_short w (die actor) None self.new }
        ensures store { self.new.store ≡ self.old.store }
    {
        if let Some(slot) = self.actors.get_mut(&actor) {
            *slot = None;
        }
    }

    /// The call that an actor's session asks for is answered in this way, if it asks for one.
    pub fn act(&mut self, actor: u64, how: How)
        ensures happens { S.is_reliable self.old.store.store → (w : worlds.World) → WorldStands S.objects self.old w → HasHappened S.objects self.old.is_short w (act actor (how_view how)) None self.new }
        ensures reliable { S.is_reliable self.old.store.store → S.is_reliable self.new.store.store }
        // Over any store, one that itself loses calls too, what that tells waits; nobody else is touched.
        ensures over { WorldMeets (AsksStore S.makes (λ store. (S.objects store, S.in_flight store)) S.fault_count) (how_view how) actor self.old self.new }
        // The session still makes as many calls at most, and where it asked for one, it makes a step when it goes on.
        ensures left { calls_left (slot_at self.new actor) ≡ calls_left (slot_at self.old actor) }
        ensures waits { asks_call (slot_at self.old actor) ≡ true → (is_lost : Bool) → takes_step is_lost (slot_at self.new actor) ≡ true }
    {
        if let Some(slot) = self.actors.get_mut(&actor) {
            let is_out = acting::act(self.alloc, &mut self.store, slot, how);
            self.is_short = either(is_out, self.is_short);
        }
    }

    /// An actor's session makes its first step, or takes the answer that waits, or that the call was lost in place of
    /// it. Returns what it tells where it ends.
    pub fn go_on(&mut self, actor: u64, is_lost: bool) -> Option<JobEnd>
        ensures happens { (w : worlds.World) → WorldStands S.objects self.old w → HasHappened S.objects self.old.is_short w (taking actor is_lost) result self.new }
        ensures store { self.new.store ≡ self.old.store }
        // With each step that isn't its last, the session makes one call less at most.
        ensures fewer { takes_step is_lost (slot_at self.old actor) ≡ true → result ≡ None → calls_left (slot_at self.new actor) < calls_left (slot_at self.old actor) }
    {
        match self.actors.get_mut(&actor) {
            Some(slot) => {
                let told = acting::go_on(slot, is_lost);
                self.is_short = either(tells_short(&told), self.is_short);
                told
            }
            None => None,
        }
    }

    /// The put in flight of a number, from 0 in the order in which they were sent, takes effect: `Created` where its
    /// name was absent, `Exists` where it stood. It stays in flight. `None` where none of that number is. Fails where
    /// memory runs out, and then nothing has happened, or where the store loses the put.
    pub fn land(&mut self, place: usize) -> Result<Option<Put>, StoreFault>
        ensures happens { S.is_reliable self.old.store.store → (w : worlds.World) → WorldStands S.objects self.old w → LandsAs S.objects self.old.is_short w place result self.new }
        ensures reliable { S.is_reliable self.old.store.store → S.is_reliable self.new.store.store }
    {
        let landed = self.store.land(place);
        self.is_short = either(is_out_of_memory(&landed), self.is_short);
        landed
    }
}
