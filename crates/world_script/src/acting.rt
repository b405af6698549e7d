//! How an actor's session is led on.
ghost use Rattle.std.specs.Prelude.{◌≡◌, ◌<◌, ◌≢◌, ◌&&◌, not, None, Some, true, false};
ghost use Rattle.stream_world.specs.Worlds as worlds;
ghost use Rattle.stream_world.specs.EventViews.{how_view};
ghost use Rattle.stream_world.specs.Left.{calls_left};
ghost use Rattle.stream_world.specs.Standing.{WorldStands, slot_at};
ghost use Rattle.world_script.specs.Acting.{CameBy, Leads, ActorMeets, ActorSteps, goes, hand_at, how_of, loses_answer, next_at};
ghost use Rattle.world_script.specs.Slots.{next_in, short_in};

use script_lines::Kind;
use session_core::{Reply, Request};
use store_core::Store;
use stream_world::{Actor, Hand, How, World};
use table_jobs::JobEnd;

/// What comes next for an actor.
#[derive(Clone, Copy)]
pub enum Next {
    /// It has no session, or its session has ended.
    Nothing,
    /// Its session makes its first step, or takes the answer that waits.
    Step,
    /// It asks for a call, which may be the put of a commit.
    Call(bool),
}

/// What comes next for the actor of a number.
pub(crate) fn next_of<S: Store>(world: &World<S>, actor: u64) -> Next
    ensures code { result ≡ next_in (slot_at world.now actor) }
    ensures next { (w : worlds.World) → WorldStands S.objects world.now w → next_at (hand_at w actor) ≡ result }
{
    match world.actors.get(&actor) {
        Some(Some(actor)) => next_by(actor),
        _ => Next::Nothing,
    }
}

fn next_by(actor: &Actor) -> Next
    ensures { result ≡ next_in (Some actor.now) }
{
    match &actor.hand {
        Hand::Fresh | Hand::Waits(_) => Next::Step,
        Hand::Asks(request) => Next::Call(matches!(request, Request::PutCommit(_, _))),
    }
}

/// Whether an actor has a session that hasn't ended.
pub(crate) fn has_session<S: Store>(world: &World<S>, actor: u64) -> bool
    ensures there { result ≡ true → (w : worlds.World) → WorldStands S.objects world.now w → next_at (hand_at w actor) ≢ Next.Nothing }
    ensures gone { result ≡ false → (w : worlds.World) → WorldStands S.objects world.now w → next_at (hand_at w actor) ≡ Next.Nothing }
{
    match next_of(world, actor) {
        Next::Nothing => false,
        Next::Step => true,
        Next::Call(_is_commit) => true,
    }
}

fn how_of(kind: Kind) -> How
    ensures { how_view result ≡ how_of kind }
{
    match kind {
        Kind::Pass | Kind::Mute => How::Once,
        Kind::Lost => How::Lost,
        Kind::Late => How::Late,
        Kind::Twice => How::Twice,
    }
}

fn loses_answer(kind: Kind) -> bool
    ensures { result ≡ loses_answer kind }
{
    matches!(kind, Kind::Mute)
}

/// Whether the answer that waits for an actor is that memory ran out.
fn ran_short<S: Store>(world: &World<S>, actor: u64) -> bool
    ensures { result ≡ short_in (slot_at world.now actor) }
{
    match world.actors.get(&actor) {
        Some(Some(actor)) => matches!(actor.hand, Hand::Waits(Reply::Memory)),
        _ => false,
    }
}

/// Whether the answer that waits for an actor is lost on the way, by the kind that its call was to meet. That memory
/// ran out isn't.
fn is_lost<S: Store>(world: &World<S>, actor: u64, kind: Kind) -> bool
    ensures { result ≡ (loses_answer kind && not (short_in (slot_at world.now actor))) }
{
    loses_answer(kind) && !ran_short(world, actor)
}

/// A step of an actor, which has a session: its first one, or its call meets a kind and it goes on. Returns what it
/// tells where it ends.
pub(crate) fn step<S: Store>(world: &mut World<S>, actor: u64, kind: Kind) -> Option<JobEnd>
    ensures came { S.is_reliable world.old.store.store → (w : worlds.World) → WorldStands S.objects world.old w → next_at (hand_at w actor) ≢ Next.Nothing
        → CameBy S.objects (ActorSteps actor kind w) result world.new }
    ensures fewer { next_in (slot_at world.old actor) ≢ Next.Nothing → result ≡ None → calls_left (slot_at world.new actor) < calls_left (slot_at world.old actor) }
    ensures reliable { S.is_reliable world.old.store.store → S.is_reliable world.new.store.store }
{
    match next_of(world, actor) {
        Next::Call(_is_commit) => {
            world.act(actor, how_of(kind));
            let is_lost = is_lost(world, actor, kind);
            world.go_on(actor, is_lost)
        }
        Next::Step => world.go_on(actor, false),
        Next::Nothing => None,
    }
}

/// An actor, which has a session, makes its first step if it has asked for nothing yet, and then its call meets a kind.
/// Returns what it tells where it ends.
pub(crate) fn meet<S: Store>(world: &mut World<S>, actor: u64, kind: Kind) -> Option<JobEnd>
    ensures came { S.is_reliable world.old.store.store → (w : worlds.World) → WorldStands S.objects world.old w → next_at (hand_at w actor) ≢ Next.Nothing
        → CameBy S.objects (ActorMeets actor kind w) result world.new }
    ensures reliable { S.is_reliable world.old.store.store → S.is_reliable world.new.store.store }
{
    match next_of(world, actor) {
        Next::Step => match step(world, actor, kind) {
            Some(outcome) => Some(outcome),
            None => step(world, actor, kind),
        },
        Next::Call(_is_commit) => step(world, actor, kind),
        Next::Nothing => None,
    }
}

fn goes(halts_at_commit: bool, next: Next) -> bool
    ensures { result ≡ goes halts_at_commit next }
{
    match next {
        Next::Nothing => false,
        Next::Step => true,
        Next::Call(is_commit) => !(halts_at_commit && is_commit),
    }
}

/// Leads an actor, which has a session, on to its end, or up to its next commit put where it halts there. Returns what
/// it tells where it ends.
pub(crate) fn lead<S: Store>(
    world: &mut World<S>,
    actor: u64,
    halts_at_commit: bool,
) -> Option<JobEnd>
    ensures came { S.is_reliable world.old.store.store → (w : worlds.World) → WorldStands S.objects world.old w → next_at (hand_at w actor) ≢ Next.Nothing
        → CameBy S.objects (Leads actor halts_at_commit w) result world.new }
    ensures reliable { S.is_reliable world.old.store.store → S.is_reliable world.new.store.store }
{
    'steps: while goes(halts_at_commit, next_of(world, actor)) {
        match step(world, actor, Kind::Pass) {
            Some(outcome) => return Some(outcome),
            None => {}
        }
    }
    None
}
