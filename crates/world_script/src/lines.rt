//! What each line of a script does to a scene, and its reply.

ghost use Rattle.lake_script.specs.ReplyView.{is_short_reply, replied, replied_short, reply_text};
ghost use Rattle.script_lines.specs.Lines.{IsTimelyIn, foreign, land, look, look_view, world, world_view};
ghost use Rattle.world_script.specs.Doing.{LineComesTo, TellsIn};
ghost use Rattle.world_script.specs.Scenes as scenes;
ghost use Rattle.world_script.specs.Scenes.{SceneStands};

use crate::alone::{create_table, run_task};
use crate::named::{Deed, do_named};
use crate::scene::Scene;
use crate::starting::start;
use lake_script::{Fault, Interpreter, LineReply, execute};
use log_reading::LogCache;
use script_lines::{Line, Look, WorldLine};
use std::alloc::Global;
use store_core::Store;

/// A put in flight takes effect.
fn land<S: Store>(scene: &mut Scene<S>, put: u64) -> LineReply
    ensures comes { S.is_reliable scene.old.world.store.store → (s : scenes.Scene) → SceneStands S.objects scene.old s → LineComesTo S.objects s (world (land put)) (reply_text result) (is_short_reply result) scene.new }
    ensures reliable { S.is_reliable scene.old.world.store.store → S.is_reliable scene.new.world.store.store }
{
    match scene.world.land(put as usize) {
        Ok(Some(put)) => LineReply::Put(put),
        Ok(None) => LineReply::Refused(Fault::NoSuchName),
        Err(fault) => LineReply::Unanswered(fault),
    }
}

/// A line that tells of the objects that stand.
fn tell<S: Store>(alloc: Global, scene: &mut Scene<S>, asked: Look<'_>) -> LineReply
    ensures tells { S.is_reliable scene.old.world.store.store → (s : scenes.Scene) → SceneStands S.objects scene.old s
        → TellsIn S.objects s (look (look_view asked.entry)) (reply_text result) (is_short_reply result) scene.new }
    ensures reliable { S.is_reliable scene.old.world.store.store → S.is_reliable scene.new.world.store.store }
{
    let mut tries = scene.tries;
    execute(
        alloc,
        Line::Look(asked),
        &mut scene.world.store.store,
        &mut tries,
        scene.use_checkpoints,
        &mut LogCache::new(alloc),
    )
}

/// A line that puts another tool's commit.
fn put_foreign<S: Store>(
    alloc: Global,
    scene: &mut Scene<S>,
    version: u64,
    action: &str,
) -> LineReply
    ensures tells { S.is_reliable scene.old.world.store.store → (s : scenes.Scene) → SceneStands S.objects scene.old s
        → TellsIn S.objects s (foreign version action.now) (reply_text result) (is_short_reply result) scene.new }
    ensures reliable { S.is_reliable scene.old.world.store.store → S.is_reliable scene.new.world.store.store }
{
    let mut tries = scene.tries;
    execute(
        alloc,
        Line::Foreign { version, action },
        &mut scene.world.store.store,
        &mut tries,
        scene.use_checkpoints,
        &mut LogCache::new(alloc),
    )
}

/// Does what a line does to the world of actors. `None` where nothing is replied.
fn change_world<S: Store>(
    alloc: Global,
    line: WorldLine<'_>,
    scene: &mut Scene<S>,
) -> Option<LineReply>
    requires { IsTimelyIn (world_view line) }
    ensures comes { S.is_reliable scene.old.world.store.store → (s : scenes.Scene) → SceneStands S.objects scene.old s → LineComesTo S.objects s (world (world_view line.entry)) (replied result) (replied_short result) scene.new }
    ensures reliable { S.is_reliable scene.old.world.store.store → S.is_reliable scene.new.world.store.store }
{
    match line {
        WorldLine::Start { actor, job } => Some(start(alloc, scene, actor, job)),
        WorldLine::Until { actor } => Some(do_named(alloc, scene, actor, Deed::Until)),
        WorldLine::Step { actor, kind } => Some(do_named(alloc, scene, actor, Deed::Step(kind))),
        WorldLine::Finish { actor } => Some(do_named(alloc, scene, actor, Deed::Finish)),
        WorldLine::Die { actor } => Some(do_named(alloc, scene, actor, Deed::Die)),
        WorldLine::Land { put } => Some(land(scene, put)),
        WorldLine::Fault { kind } => {
            scene.fault = Some(kind);
            None
        }
    }
}

impl<S: Store> Interpreter for Scene<S> {
    ghost use Rattle.world_script.specs.Doing.{DoesInScene};
    ghost use Rattle.world_script.specs.Scenes as scenes;
    ghost use Rattle.world_script.specs.Scenes.{SceneStands};

    ghost State = { scenes.Scene };

    ghost stands = { λ scene s. SceneStands S.objects scene s };

    ghost does = { DoesInScene };

    ghost is_reliable = { λ scene. S.is_reliable scene.world.store.store };

    ghost is_ready = { λ scene. Unit {0} };

    ghost Kept = { Unit {0} };

    ghost kept = { λ scene. tt };

    // A session goes on when the line that began it is gone.
    const OUTLIVES_LINES: bool = true;

    fn do_line(&mut self, alloc: Global, line: Line<'_>) -> Option<LineReply> {
        match line {
            Line::Create { id, at, schema } => Some(create_table(alloc, self, id, at, schema)),
            Line::Job(job) => Some(run_task(alloc, self, job)),
            Line::Tries { count } => {
                // A line gives at least one.
                self.tries = count.max(1);
                Some(LineReply::Noted)
            }
            Line::Look(asked) => Some(tell(alloc, self, asked)),
            Line::Foreign { version, action } => Some(put_foreign(alloc, self, version, action)),
            Line::World(line) => change_world(alloc, line, self),
        }
    }
}
