//! The line that starts an actor.
ghost use Rattle.std.specs.Prelude.{◌≡◌, ℕ, List, OnOk, IfOk, IfErr, Some};
ghost use Rattle.std.specs.BTreeMap.{get_by_text};
ghost use Rattle.lake_script.specs.ReplyView.{is_short_reply, reply_text};
ghost use Rattle.script_lines.specs.Lines.{IsTimelyTask, task_view};
ghost use Rattle.world_script.specs.Doing.{ComesToStart, StartsAs};
ghost use Rattle.world_script.specs.Scenes as scenes;
ghost use Rattle.world_script.specs.Scenes.{SceneStands, next_behind_part, part_for};

use crate::asked::kept_job;
use crate::part::{Part, Parts, part_of, set_part, set_refused};
use crate::scene::Scene;
use lake_script::LineReply;
use script_lines::Job;
use std::alloc::{AllocError, Global};
use store_core::{Store, StoreFault};

/// An actor begins a job, in place of an older one. Where memory runs out it doesn't.
pub(crate) fn start<S: Store>(
    alloc: Global,
    scene: &mut Scene<S>,
    name: &str,
    job: Job<'_>,
) -> LineReply
    requires { IsTimelyTask (task_view job) }
    ensures comes { (s : scenes.Scene) → SceneStands S.objects scene.old s → ComesToStart S.objects s name.now (task_view job.entry) (reply_text result) (is_short_reply result) scene.new }
    ensures store { scene.new.world.store ≡ scene.old.world.store }
{
    match begin_named(alloc, scene, name, job) {
        Ok(()) => LineReply::Noted,
        Err(_error) => LineReply::Unanswered(StoreFault::Memory),
    }
}

/// The part of an actor of that name: a new one where it has none yet. Fails where memory runs out, and changes nothing
/// then.
fn name_actor(
    alloc: Global,
    parts: &mut Parts,
    next: &mut u64,
    name: &str,
) -> Result<Part, AllocError>
    ensures part { IfOk result (λ part. part ≡ part_for (get_by_text parts.old name.now) next.old) }
    ensures now { IfOk result (λ part. get_by_text parts.new name.now ≡ Some part) }
    ensures others { OnOk result ((other : List ℕ) → (other ≡ name.now → ⊥) → get_by_text parts.new other ≡ get_by_text parts.old other) }
    ensures next { OnOk result (next.new ≡ next_behind_part (get_by_text parts.old name.now) next.old) }
    ensures same { IfErr result (λ _. (other : List ℕ) → get_by_text parts.new other ≡ get_by_text parts.old other) }
    ensures still { IfErr result (λ _. next.new ≡ next.old) }
{
    if let Some(part) = part_of(parts, name) {
        return Ok(part);
    }
    let behind = next.checked_add(1).ok_or(AllocError)?;
    let part = Part {
        number: *next,
        is_refused: false,
    };
    set_part(alloc, parts, name, part)?;
    *next = behind;
    Ok(part)
}

/// Names an actor and has it begin the job. Where the offset of a read can't be read, it is told so later.
fn begin_named<S: Store>(
    alloc: Global,
    scene: &mut Scene<S>,
    name: &str,
    job: Job<'_>,
) -> Result<(), AllocError>
    requires { IsTimelyTask (task_view job) }
    ensures starts { (s : scenes.Scene) → SceneStands S.objects scene.old s → StartsAs S.objects s name.now (task_view job.entry) result scene.new }
    ensures store { scene.new.world.store ≡ scene.old.world.store }
{
    let begun = kept_job(alloc, job, scene.tries, scene.use_checkpoints)?;
    let part = name_actor(alloc, &mut scene.parts, &mut scene.next, name)?;
    match begun {
        Some(job) => {
            scene.world.begin(part.number, job)?;
            set_refused(&mut scene.parts, name, part, false);
        }
        None => {
            scene.world.die(part.number);
            set_refused(&mut scene.parts, name, part, true);
        }
    }
    Ok(())
}
