//! What a refusal means, told behind it.
ghost use Rattle.std.specs.Prelude.{OnOk};
ghost use Rattle.std.specs.Io.KnownBytes.{Appends};
ghost use Rattle.lake_script.specs.ReplyView.{reply_text};
ghost use Rattle.lake_script.specs.Streams.{held};
ghost use Rattle.lake_hints.specs.ErrorOutputs.{TellsSome};
ghost use Rattle.lake_hints.specs.Meanings.{AreMeanings, IsMeaning, IsMeaningOf, IsMeaningOfLine, reply_lines};

use crate::error_output::ErrorOutput;
use lake_script::{LineReply, Output, OutputError};
use refusal_texts::{refusal_named, refusal_of_reply};
use script_lines::first_line;
use std::alloc::Global;
use std::io::Write;

/// Tells what the refusal of that code means, where there is one.
pub fn explain<E: Write>(code: &str, err: &mut ErrorOutput<E>)
    ensures { TellsSome E.contents (IsMeaning code.now) err.old err.new }
{
    if let Some(refusal) = refusal_named(code) {
        err.say(refusal);
    }
}

/// Tells what a reply's refusal means: of a history that ends early that is its last line's.
pub fn explain_reply<E: Write>(alloc: Global, reply: &LineReply, err: &mut ErrorOutput<E>)
    ensures { TellsSome E.contents (IsMeaningOf (reply_text reply.now)) err.old err.new }
{
    let mut text = Output::new(alloc, Vec::new(alloc));
    match give(reply, &mut text) {
        Ok(()) => explain_lines(text.writer.as_slice(), err),
        Err(_error) => {}
    }
}

/// Gives a reply and writes it.
fn give<W: Write>(reply: &LineReply, output: &mut Output<W>) -> Result<(), OutputError>
    ensures { OnOk result (Appends (held W.contents output.old) (W.contents output.new.writer) (reply_text reply.now)) }
{
    reply.give(output)?;
    output.flush()
}

/// Tells what each line of a text means that refuses something.
fn explain_lines<E: Write>(text: &[u8], err: &mut ErrorOutput<E>)
    ensures { TellsSome E.contents (AreMeanings (reply_lines text.now)) err.old err.new }
{
    let mut rest = Some(text);
    while let Some(left) = rest {
        let (line, after) = first_line(left);
        explain_line(line, err);
        rest = after;
    }
}

/// Tells what a line means that refuses something.
fn explain_line<E: Write>(line: &[u8], err: &mut ErrorOutput<E>)
    ensures { TellsSome E.contents (IsMeaningOfLine line.now) err.old err.new }
{
    if let Some(refusal) = refusal_of_reply(line) {
        err.say(refusal);
    }
}
