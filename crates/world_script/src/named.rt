//! The lines that name an actor which was started.
ghost use Rattle.std.specs.Prelude.{◌≡◌, ◌≢◌, Some, false};
ghost use Rattle.lake_script.specs.ReplyView.{is_short_reply, reply_text};
ghost use Rattle.stream_world.specs.Worlds as worlds;
ghost use Rattle.stream_world.specs.Standing.{WorldStands};
ghost use Rattle.world_script.specs.Acting.{CameBy, hand_at, next_at};
ghost use Rattle.world_script.specs.Doing.{ComesToNamed};
ghost use Rattle.world_script.specs.Lines.{deed_does, if_refused};
ghost use Rattle.world_script.specs.Scenes as scenes;
ghost use Rattle.world_script.specs.Scenes.{SceneStands};
ghost use Rattle.world_script.specs.declared.acting.Next.TheVariants.{Nothing};

use crate::acting::{has_session, lead, meet};
use crate::part::{part_of, set_refused};
use crate::replies::reply_in;
use crate::scene::Scene;
use lake_script::{Fault, LineReply};
use script_lines::Kind;
use source_core::TailFault;
use std::alloc::Global;
use store_core::Store;
use stream_world::World;
use table_jobs::JobEnd;

/// What a line does to an actor that was started.
#[derive(Clone, Copy)]
pub enum Deed {
    /// It is led on until its next call is the put of a commit.
    Until,
    /// Its next call meets a kind.
    Step(Kind),
    /// It is led on to its end.
    Finish,
    /// Its session is dropped.
    Die,
}

/// Does it to the actor of a number, which has a session.
fn do_deed<S: Store>(world: &mut World<S>, number: u64, deed: Deed) -> Option<JobEnd>
    ensures came { S.is_reliable world.old.store.store → (w : worlds.World) → WorldStands S.objects world.old w → next_at (hand_at w number) ≢ Nothing
        → CameBy S.objects (deed_does deed number w) result world.new }
    ensures reliable { S.is_reliable world.old.store.store → S.is_reliable world.new.store.store }
{
    match deed {
        Deed::Until => lead(world, number, true),
        Deed::Step(kind) => meet(world, number, kind),
        Deed::Finish => lead(world, number, false),
        Deed::Die => {
            world.die(number);
            None
        }
    }
}

/// What is told of an actor whose read was refused when it was started.
fn refusal_told(deed: Deed) -> LineReply
    ensures told { reply_text result ≡ if_refused deed }
    ensures short { is_short_reply result ≡ false }
{
    match deed {
        Deed::Die => LineReply::Noted,
        Deed::Until | Deed::Step(_) | Deed::Finish => {
            LineReply::NotTailed(TailFault::BadOffsetText)
        }
    }
}

/// Does it to the actor of a name: `Q2` where it isn't there or has ended.
pub(crate) fn do_named<S: Store>(
    alloc: Global,
    scene: &mut Scene<S>,
    name: &str,
    deed: Deed,
) -> LineReply
    ensures comes { S.is_reliable scene.old.world.store.store → (s : scenes.Scene) → SceneStands S.objects scene.old s → ComesToNamed S.objects s name.now deed (reply_text result) (is_short_reply result) scene.new }
    ensures reliable { S.is_reliable scene.old.world.store.store → S.is_reliable scene.new.world.store.store }
{
    let Some(part) = part_of(&scene.parts, name) else {
        return LineReply::Refused(Fault::NoActor);
    };
    if part.is_refused {
        set_refused(&mut scene.parts, name, part, false);
        return refusal_told(deed);
    }
    if !has_session(&scene.world, part.number) {
        return LineReply::Refused(Fault::NoActor);
    }
    let outcome = do_deed(&mut scene.world, part.number, deed);
    reply_in(alloc, outcome)
}
