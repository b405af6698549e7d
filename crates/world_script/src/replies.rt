//! What is printed of an actor that goes on, and what the next job without an actor will know of the log.
ghost use Rattle.std.specs.Prelude.{◌≡◌, Some};
ghost use Rattle.lake_script.specs.Endings.{IsReplyOf, IsShortBy};
ghost use Rattle.lake_script.specs.ReplyView.{is_short_reply, reply_text};
ghost use Rattle.stream_world.specs.Standing.{HandsBackFront, WorldStands};
ghost use Rattle.stream_world.specs.Worlds as worlds;
ghost use Rattle.table_jobs.specs.Sessions.{end_view};
ghost use Rattle.world_script.specs.Doing.{IsReplyAs, IsShortAs};

use lake_script::{LineReply, reply_learning, reply_of};
use log_reading::LogCache;
use std::alloc::Global;
use std::mem;
use store_core::Store;
use stream_world::World;
use table_jobs::JobEnd;
use table_log::Loaded;

/// The reply to a line by which an actor went on, and ended if there is an outcome.
pub(crate) fn reply_in(alloc: Global, outcome: Option<JobEnd>) -> LineReply
    ensures told { IsReplyAs outcome (reply_text result) }
    ensures short { IsShortAs outcome (reply_text result) (is_short_reply result) }
{
    match outcome {
        None => LineReply::Noted,
        Some(outcome) => reply_of(alloc, outcome),
    }
}

/// The reply to what a session told when it ended. What it knew of the log by then is known in the world.
pub(crate) fn reply_to<S: Store>(alloc: Global, world: &mut World<S>, end: JobEnd) -> LineReply
    ensures told { IsReplyOf (end_view end) (reply_text result) }
    ensures short { IsShortBy (end_view end) (reply_text result) (is_short_reply result) }
    ensures stands { (w : worlds.World) → WorldStands S.objects world.old w → HandsBackFront (S.objects world.old.store.store) (Some end) → WorldStands S.objects world.new w }
    ensures store { world.new.store ≡ world.old.store }
{
    let mut cache = LogCache::new(alloc);
    cache.loaded = world.forget();
    let reply = reply_learning(alloc, end, &mut cache);
    world.learn(mem::replace(&mut cache.loaded, Loaded::new(alloc)));
    reply
}
