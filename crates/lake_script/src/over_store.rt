//! A store that the lines of a script act on, where none is of actors.
ghost use Rattle.std.specs.Prelude.{◌≡◌, ◌≤◌};
ghost use Rattle.std.specs.Borrow.{GName};

use crate::interpreter::Interpreter;
use crate::reply::{LineReply, execute};
use log_reading::LogCache;
use script_lines::Line;
use std::alloc::Global;
use store_core::Store;

/// How many versions an append and a close try at most, until a line says otherwise.
pub(crate) const TRIES: u64 = 16;

/// A store, with what lines have set and what is known of its log.
#[derive(Drop)]
pub(crate) struct OverStore<'s, 'c, S> {
    pub(crate) store: &'s mut S,
    pub(crate) tries: u64,
    pub(crate) use_checkpoints: bool,
    pub(crate) cache: &'c mut LogCache,
}

impl<S: Store> Interpreter for OverStore<'_, '_, S> {
    ghost use Rattle.lake_script.specs.OverStore.{DoesOverStore, StoreState};
    ghost use Rattle.log_reading.specs.LogCache.{IsCacheOf};

    ghost State = { StoreState };

    ghost stands = { λ over s. (S.objects over.store.now ≡ s.objects) × (over.use_checkpoints ≡ s.use_checkpoints) };

    ghost does = { DoesOverStore };

    ghost is_reliable = { λ over. S.is_reliable over.store.now };

    ghost is_ready = { λ over. (1 ≤ over.tries) × IsCacheOf (S.objects over.store.now) over.cache.now };

    ghost Kept = { GName };

    ghost kept = { λ over. over.store.ghost_name };

    const OUTLIVES_LINES: bool = false;

    fn do_line(&mut self, alloc: Global, line: Line<'_>) -> Option<LineReply> {
        let reply = execute(
            alloc,
            line,
            self.store,
            &mut self.tries,
            self.use_checkpoints,
            self.cache,
        );
        Some(reply)
    }
}
