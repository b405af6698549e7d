//! A scene: the world that a script with actors acts on, and what its lines have set.
ghost use Rattle.std.specs.Prelude.{◌≡◌, ◌≤◌};

use crate::part::Parts;
use script_lines::Kind;
use std::alloc::Global;
use std::collections::BTreeMap;
use store_core::Store;
use stream_world::World;

/// How many versions a session tries at most, until a line says otherwise.
const TRIES: u64 = 16;

/// What a script with actors acts on.
#[derive(Drop)]
pub struct Scene<S> {
    /// The store, the puts in flight, and the actors by number; 0 is that of lines without an actor.
    pub world: World<S>,
    /// The parts of the actors that have a name.
    pub parts: Parts,
    /// The number of the actor that is named next.
    pub next: u64,
    /// How many versions later sessions try at most.
    pub tries: u64,
    /// What the next commit put of a line without an actor meets.
    pub fault: Option<Kind>,
    /// Whether later sessions read the log by its checkpoints.
    pub use_checkpoints: bool,
    pub ghost some: { 1 ≤ tries },
}

impl<S: Store> Scene<S> {
    ghost use Rattle.world_script.specs.Scenes.{SceneStands, first_scene};

    /// The scene over a store in which nobody was named yet.
    pub fn new(alloc: Global, store: S, use_checkpoints: bool) -> Scene<S>
        ensures stands { SceneStands S.objects result (first_scene (S.objects store) use_checkpoints) }
        ensures store { result.world.store.store ≡ store }
    {
        Scene {
            world: World::new(alloc, store),
            parts: BTreeMap::new(alloc),
            next: 1,
            tries: TRIES,
            fault: None,
            use_checkpoints,
        }
    }
}
