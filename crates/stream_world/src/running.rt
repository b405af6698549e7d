//! Lists of events, and what was told by them.

ghost use Rattle.std.specs.Prelude.{◌≡◌, IfOk, length, map, option_map};
ghost use Rattle.stream_model.specs.SoundStores.{IsSoundStore};
ghost use Rattle.stream_model.specs.Worlds.{IsFirstStore};
ghost use Rattle.stream_world.specs.EventViews.{event_view};
ghost use Rattle.stream_world.specs.Running.{AreEventsSo, HasRun};
ghost use Rattle.table_jobs.specs.Sessions.{end_view};

use crate::event::Event;
use crate::world::World;
use std::alloc::{AllocError, Global};
use store_core::Store;
use stream_model::every_world;
use table_jobs::JobEnd;

/// What a list of events came to.
#[derive(Drop)]
pub struct Ran<S> {
    /// The world behind the last event.
    pub world: World<S>,
    /// For each event, what a session told that ended by it.
    pub told: Vec<Option<JobEnd>>,
}

impl<S: Store> Ran<S> {
    /// Whether a growth was refused, or an object would have passed 64 MiB, as [`World::short`] tells it.
    pub fn short(&self) -> bool
        ensures { result ≡ self.now.world.is_short }
    {
        self.world.short()
    }
}

/// Lets events happen one after the other, over a store in which nobody acts yet. Fails where memory runs out in a
/// beginning, in a landing or for what is told; the store is dropped then. Where it runs out in a call, the session is
/// told so, the events go on, and what is returned is [`short`](Ran::short).
///
/// Over an empty store that loses no call, what is left is sound, and what was told is so, each outcome of the job that
/// its actor began last: each batch that was acknowledged stands in the log once, every batch at most once and as
/// submitted, each application's in rising number and none after its close; and what a reader was handed that resumes
/// at its last offset is exactly the log's rows up to that offset, once each, in log order.
pub fn run<S: Store + Drop>(
    alloc: Global,
    store: S,
    events: Vec<Event>,
) -> Result<Ran<S>, AllocError>
    ensures each { IfOk result (λ ran. length ran.told.items ≡ length events.items) }
    ensures happens { S.is_reliable store → IfOk result (λ ran. HasRun S.objects (S.objects store) events.items ran.told.items ran.world) }
    ensures sound { S.is_reliable store → IsFirstStore (S.objects store) → IfOk result (λ ran. IsSoundStore (S.objects ran.world.store.store)) }
    ensures headline { S.is_reliable store → IsFirstStore (S.objects store) → IfOk result (λ ran. AreEventsSo (map event_view events.items) (map (option_map end_view) ran.told.items) (S.objects ran.world.store.store)) }
{
    every_world();
    let mut world = World::new(alloc, store);
    let mut told = Vec::with_capacity(alloc, events.len())?;
    for event in events {
        let outcome = world.step(event)?;
        told.push(outcome)?;
    }
    Ok(Ran { world, told })
}
