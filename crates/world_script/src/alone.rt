//! The lines without an actor that are jobs: of an actor of their own, which runs to its end.
ghost use Rattle.std.specs.Prelude.{◌≢◌, ◌<◌, ◌^◌, Some};
ghost use Rattle.lake_script.specs.ReplyView.{is_short_reply, reply_text};
ghost use Rattle.script_lines.specs.Lines.{IsTimelyTask, create, task, task_view};
ghost use Rattle.stream_world.specs.Worlds as worlds;
ghost use Rattle.table_jobs.specs.Views.{job_view};
ghost use Rattle.stream_world.specs.Standing.{WorldStands};
ghost use Rattle.world_script.specs.Acting.{hand_at, next_at};
ghost use Rattle.lake_script.specs.LineJobs.{job_of_creation, job_of_task};
ghost use Rattle.world_script.specs.Doing.{CameThrough, ComesToAlone, RunsJob};
ghost use Rattle.world_script.specs.Scenes as scenes;
ghost use Rattle.world_script.specs.Scenes.{SceneStands};
ghost use Rattle.world_script.specs.declared.acting.Next.TheVariants.{Nothing};

use crate::acting::{lead, step};
use crate::asked::{kept_creation, kept_job};
use crate::replies::reply_to;
use crate::scene::Scene;
use commit_core::CreateFault;
use lake_script::{Fault, LineReply, no_room_for};
use script_lines as lines;
use script_lines::Kind;
use source_core::TailFault;
use std::alloc::{AllocError, Global};
use store_core::Store;
use stream_world::World;
use table_jobs::{Job, JobEnd};

/// The number of the actor of lines without one.
const ALONE: u64 = 0;

/// Leads that actor, which has a session, to its end. Its next commit put meets the fault that is set, if there is one.
fn lead_through<S: Store>(world: &mut World<S>, fault: &mut Option<Kind>) -> Option<JobEnd>
    ensures came { S.is_reliable world.old.store.store → (w : worlds.World) → WorldStands S.objects world.old w → next_at (hand_at w 0) ≢ Nothing
        → CameThrough S.objects fault.old w result fault.new world.new }
    ensures reliable { S.is_reliable world.old.store.store → S.is_reliable world.new.store.store }
{
    let Some(kind) = *fault else {
        return lead(world, ALONE, false);
    };
    match lead(world, ALONE, true) {
        Some(outcome) => Some(outcome),
        None => {
            *fault = None;
            match step(world, ALONE, kind) {
                Some(outcome) => Some(outcome),
                None => lead(world, ALONE, false),
            }
        }
    }
}

/// Runs a job to its end. Fails where there is no memory to begin it.
fn run_job<S: Store>(
    alloc: Global,
    scene: &mut Scene<S>,
    job: Job<'static>,
) -> Result<LineReply, AllocError>
    ensures runs { S.is_reliable scene.old.world.store.store → (s : scenes.Scene) → SceneStands S.objects scene.old s → RunsJob S.objects s (job_view job.entry) result scene.new }
    ensures reliable { S.is_reliable scene.old.world.store.store → S.is_reliable scene.new.world.store.store }
{
    scene.world.begin_knowing(ALONE, job)?;
    match lead_through(&mut scene.world, &mut scene.fault) {
        Some(outcome) => Ok(reply_to(alloc, &mut scene.world, outcome)),
        // A session that is led on ends.
        None => Ok(LineReply::Refused(Fault::NoActor)),
    }
}

/// A line that creates a table.
pub(crate) fn create_table<S: Store>(
    alloc: Global,
    scene: &mut Scene<S>,
    id: &str,
    at: u64,
    schema: &str,
) -> LineReply
    requires { at < 2 ^ 63 }
    ensures comes { S.is_reliable scene.old.world.store.store → (s : scenes.Scene) → SceneStands S.objects scene.old s
        → ComesToAlone S.objects s (create id.now at schema.now) (Some (job_of_creation id.now at schema.now)) (reply_text result) (is_short_reply result) scene.new }
    ensures reliable { S.is_reliable scene.old.world.store.store → S.is_reliable scene.new.world.store.store }
{
    let Ok(job) = kept_creation(alloc, id, at, schema) else {
        return LineReply::NotCreated(CreateFault::Memory);
    };
    match run_job(alloc, scene, job) {
        Ok(reply) => reply,
        Err(_error) => LineReply::NotCreated(CreateFault::Memory),
    }
}

/// A line that is a task.
pub(crate) fn run_task<S: Store>(
    alloc: Global,
    scene: &mut Scene<S>,
    job: lines::Job<'_>,
) -> LineReply
    requires { IsTimelyTask (task_view job) }
    ensures comes { S.is_reliable scene.old.world.store.store → (s : scenes.Scene) → SceneStands S.objects scene.old s
        → ComesToAlone S.objects s (task (task_view job.entry)) (job_of_task s.use_checkpoints s.tries (task_view job.entry)) (reply_text result) (is_short_reply result) scene.new }
    ensures reliable { S.is_reliable scene.old.world.store.store → S.is_reliable scene.new.world.store.store }
{
    let no_room = no_room_for(&job);
    let found = match kept_job(alloc, job, scene.tries, scene.use_checkpoints) {
        Ok(found) => found,
        Err(_error) => return no_room,
    };
    let Some(job) = found else {
        return LineReply::NotTailed(TailFault::BadOffsetText);
    };
    match run_job(alloc, scene, job) {
        Ok(reply) => reply,
        Err(_error) => no_room,
    }
}
