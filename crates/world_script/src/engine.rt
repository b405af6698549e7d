//! The engine of a script with actors: it answers the lines of a text in a world, one by one.
ghost use Rattle.std.specs.Prelude.{◌≡◌, ◌≤◌, ◌^◌, None, length};
ghost use Rattle.delta_actions.specs.Commit.{lines_of};
ghost use Rattle.lake_script.specs.Runs.{TellsWhole};
ghost use Rattle.lake_script.specs.Streams.{held};
ghost use Rattle.lake_script.specs.TextRuns.{EndsText};
ghost use Rattle.lake_script.specs.Told.{ArePutHere, Finishes};
ghost use Rattle.stream_world.specs.Worlds.{IsFirstStore};
ghost use Rattle.world_script.specs.ByLines.{IsTextSo};
ghost use Rattle.world_script.specs.WorldRuns.{IsWorldRun};

use crate::scene::Scene;
use lake_script::{End, Outcome, Output, answer_lines};
use std::alloc::Global;
use std::io::Write;
use store_core::Store;
use stream_world::every_world;

/// How a run ended, and the store that it left.
#[derive(Drop)]
pub struct Ran<S> {
    pub outcome: Outcome,
    pub store: S,
    /// The bad line at which [`run`](crate::run) ended, without its newline, where there was room to keep it; else
    /// `None`, and so from [`play`] and [`run_any`](crate::run_any). Of a long line the characters that end by byte 256
    /// are kept, of one that isn't UTF-8 at most 256 bytes, from the first on that is no text.
    pub bad: Option<Vec<u8>>,
}

/// Plays a script with actors that is given as text, of at most 1 GiB, over a store: answers each of its lines, up to
/// the first bad one, and writes what waits then. It never ends as [`End::NotRead`]. An append, a close or a checkpoint
/// without an actor begins with what the one before knew of the log; the session of an actor, and each read, with
/// nothing.
///
/// An actor that waits takes no time. A line takes the time of the calls that it makes, and of the steps of the
/// sessions that make them.
pub fn play<S: Store, W: Write>(
    alloc: Global,
    text: &[u8],
    store: S,
    output: &mut Output<W>,
    use_checkpoints: bool,
) -> Ran<S>
    requires { length text.now ≤ 2 ^ 30 }
    // Over a store that loses no call each line does what it asks for in a world, and is told that.
    ensures played { S.is_reliable store → IsWorldRun use_checkpoints text.now result.outcome (held W.contents output.old) (W.contents output.new.writer) (S.objects store) (S.objects result.store) }
    // The sentence, where the run finishes and the writer tells its bytes: where nothing stood, and no line puts another
    // tool's commit, what the text's jobs told, by its lines and the replies alone, is so of the table that is left.
    ensures headline { S.is_reliable store → IsFirstStore (S.objects store) → ArePutHere (lines_of text.now) → Finishes result.outcome.end (λ _. TellsWhole (held W.contents output.old) (W.contents output.new.writer)
        (λ written. IsTextSo use_checkpoints text.now written (S.objects result.store))) }
    ensures reliable { S.is_reliable store → S.is_reliable result.store }
    // Over any store, one that loses calls too: which bad line it ends at, and how it leaves the output.
    ensures ends { EndsText W.contents text.now result.outcome output.old output.new }
    ensures unkept { result.bad ≡ None }
{
    every_world();
    let mut scene = Scene::new(alloc, store, use_checkpoints);
    let mut is_short = false;
    let ended = answer_lines(alloc, text, &mut scene, output, &mut is_short);
    Ran {
        outcome: Outcome::of(ended, is_short),
        store: scene.world.store.store,
        bad: None,
    }
}
