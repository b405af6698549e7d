//! Any script: read to its end, and then answered in a world where it has actors, and else line by line.
ghost use Rattle.std.specs.Prelude.{◌≡◌, ◌≢◌, ◌≤◌, ◌^◌, None, true, length, IfSome};
ghost use Rattle.delta_actions.specs.Commit.{lines_of};
ghost use Rattle.lake_script.specs.Runs.{TellsWhole};
ghost use Rattle.lake_script.specs.Streams.{held, unread};
ghost use Rattle.lake_script.specs.TextRuns.{EndsOutput, EndsText};
ghost use Rattle.lake_script.specs.Told.{ArePutHere, Finishes, fell_short};
ghost use Rattle.stream_world.specs.Worlds.{IsFirstStore};
ghost use Rattle.world_script.specs.ByLines.{IsTextSo};
ghost use Rattle.world_script.specs.KeptLines.{IsBadKept, IsKeptOf};
ghost use Rattle.world_script.specs.Words.{needs_world};
ghost use Rattle.world_script.specs.WorldRuns.{EndsInput, IsRunOfText};

use crate::engine::{Ran, play};
use crate::words::needs_world;
use lake_script::{End, Input, InputError, Outcome, Output, run_text};
use std::alloc::Global;
use std::io::{Read, Write};
use std::str;
use store_core::Store;

/// Runs a script that is given as text, of at most 1 GiB, over a store: in a world where it has actors ([`play`]), and
/// else as [`run_text`](lake_script::run_text) does. It never ends as [`End::NotRead`].
pub fn run_any<S: Store, W: Write>(
    alloc: Global,
    text: &[u8],
    store: S,
    output: &mut Output<W>,
    use_checkpoints: bool,
) -> Ran<S>
    requires { length text.now ≤ 2 ^ 30 }
    // What is told and left: of a text without actors as `run_text` has it, of one with actors as `play` does.
    ensures runs { S.is_reliable store → IsRunOfText W.contents S.objects use_checkpoints text.now result.outcome output.old output.new store result.store }
    ensures headline { needs_world text.now ≡ true → S.is_reliable store → IsFirstStore (S.objects store) → ArePutHere (lines_of text.now) → Finishes result.outcome.end (λ _. TellsWhole (held W.contents output.old) (W.contents output.new.writer)
        (λ written. IsTextSo use_checkpoints text.now written (S.objects result.store))) }
    // Of any text.
    ensures reliable { S.is_reliable store → S.is_reliable result.store }
    ensures ends { EndsText W.contents text.now result.outcome output.old output.new }
    ensures unkept { result.bad ≡ None }
{
    if needs_world(text) {
        return play(alloc, text, store, output, use_checkpoints);
    }
    let mut store = store;
    let outcome = run_text(alloc, text, &mut store, output, use_checkpoints);
    Ran {
        outcome,
        store,
        bad: None,
    }
}

/// How many bytes of a bad line are kept at most.
const MOST_KEPT: usize = 256;

/// The part of a line that is kept: its first characters, or where it isn't UTF-8, the bytes from the first on that is
/// no text.
fn kept_part(line: &[u8]) -> &[u8]
    ensures few { length result.now ≤ 256 }
    ensures part { IsKeptOf line.now result.now }
{
    match str::from_utf8(line) {
        Ok(text) => text[..text.floor_char_boundary(MOST_KEPT)].as_bytes(),
        Err(error) => {
            let rest = &line[error.valid_up_to()..];
            &rest[..rest.len().min(MOST_KEPT)]
        }
    }
}

/// What is kept of the bad line at which a run of a text ended.
fn bad_line(alloc: Global, text: &[u8], end: End) -> Option<Vec<u8>>
    ensures few { IfSome result (λ kept. length kept.items ≤ 256) }
    ensures bad { IfSome result (λ kept. IsBadKept end text.now kept.items) }
{
    let End::BadLine(number) = end else {
        return None;
    };
    let before = number.checked_sub(1)?;
    let line = text.split(|byte| *byte == b'\n').nth(before as usize)?;
    Vec::from_slice(alloc, kept_part(line)).ok()
}

/// A run whose input wasn't read to its end, over a store that is as it was.
fn not_run<S: Store>(error: InputError, store: S) -> Ran<S>
    ensures end { result.outcome.end ≡ End.NotRead }
    ensures short { error ≡ InputError.Memory → fell_short result.outcome ≡ true }
    ensures store { result.store ≡ store }
    ensures unkept { result.bad ≡ None }
{
    Ran {
        outcome: Outcome::new(End::NotRead, error == InputError::Memory),
        store,
        bad: None,
    }
}

/// Runs a script over a store, which it hands back: reads its input to the end, then answers each line, up to the first
/// bad one, as [`run_any`] does.
pub fn run<R: Read, W: Write, S: Store>(
    alloc: Global,
    input: &mut Input<R>,
    output: &mut Output<W>,
    store: S,
    use_checkpoints: bool,
) -> Ran<S>
    // Once its input was read, and where the reader tells its bytes, all of what `run_any` says of the text.
    ensures runs { result.outcome.end ≢ End.NotRead → S.is_reliable store → IfSome (unread R.remaining input.old) (λ text.
        IsRunOfText W.contents S.objects use_checkpoints text result.outcome output.old output.new store result.store) }
    // The sentence, of a script with actors over nothing.
    ensures headline { S.is_reliable store → IsFirstStore (S.objects store) → Finishes result.outcome.end (λ _. IfSome (unread R.remaining input.old) (λ text. needs_world text ≡ true → ArePutHere (lines_of text)
        → TellsWhole (held W.contents output.old) (W.contents output.new.writer) (λ written. IsTextSo use_checkpoints text written (S.objects result.store)))) }
    ensures reliable { S.is_reliable store → S.is_reliable result.store }
    // Over any store: when its input isn't read, and what it leaves then; and how it leaves the output.
    ensures input { EndsInput R.remaining result.outcome input.old input.new output.old output.new store result.store }
    ensures ends { EndsOutput W.contents result.outcome output.old output.new }
    // Of a bad line not much is kept, however long it is: its front, where it is a text.
    ensures kept { IfSome result.bad (λ kept. length kept.items ≤ 256) }
    ensures kept_of { IfSome result.bad (λ kept. IfSome (unread R.remaining input.old) (λ text. IsBadKept result.outcome.end text kept.items)) }
{
    match input.read_to_end(alloc) {
        Ok(text) => {
            let mut ran = run_any(alloc, text.as_slice(), store, output, use_checkpoints);
            ran.bad = bad_line(alloc, text.as_slice(), ran.outcome.end);
            ran
        }
        Err(error) => not_run(error, store),
    }
}
