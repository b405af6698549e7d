//! The lines of a text, answered one after the other by whoever does what they ask for.
ghost use Rattle.std.specs.Prelude.{◌≡◌, ◌≤◌, ◌^◌, ℕ, List, Bool, Err, IfOk, OnErr, OnOk, ⊤, false, length, true};
ghost use Rattle.script_lines.specs.Lines.{IsTimely, Statement, statement_view};
ghost use Rattle.lake_script.specs.Answered.{AnsweredInPart, AnsweredText, AnswersLines, LeadsTo};
ghost use Rattle.lake_script.specs.Ended.{LeavesOutput};
ghost use Rattle.lake_script.specs.ReplyView.{replied, replied_short};
ghost use Rattle.lake_script.specs.Runs.{TellsFront, TellsWhole};
ghost use Rattle.lake_script.specs.Streams.{held, write_failed};
ghost use Rattle.lake_script.specs.Told.{first_bad};

use crate::outputs::{Output, OutputError};
use crate::reply::LineReply;
use json::Scratch;
use script_lines::{Line, Reading, first_line, reading_of};
use std::alloc::Global;
use std::io::Write;

/// Who does what the lines of a script ask for. Its contract speaks of states, as plain data, and of what a line does
/// to them.
pub trait Interpreter {
    ghost use Rattle.script_lines.specs.Lines.{Statement};

    /// What lines act on.
    ghost State: { Type 0 };

    /// An interpreter where it is now stands for this state.
    ghost stands: { Self → State → Type 0 };

    /// What a line does: the state in front of it, what it asks for, its reply, whether that is short, and the state
    /// behind it.
    ghost does: { State → Statement → List ℕ → Bool → State → Type 0 };

    /// Its store loses no call.
    ghost is_reliable: { Self → Type 0 };

    /// What it remembers from line to line is so.
    ghost is_ready: { Self → Type 0 };

    /// What stays from line to line, as plain data.
    ghost Kept: { Type 0 };

    /// What stays of this one.
    ghost kept: { Self → Kept };

    /// Whether what a line asks for may be needed when the line is gone.
    const OUTLIVES_LINES: bool;

    /// Does what a line asks for. `None` where nothing is replied.
    fn do_line(&mut self, alloc: Global, line: Line<'_>) -> Option<LineReply>
        requires ready { is_ready self.old }
        requires timely { IsTimely (statement_view line) }
        ensures ready { is_ready self.new }
        ensures does { is_reliable self.old → (s : State) → stands self.old s
            → LeadsTo (does s (statement_view line.entry) (replied result) (replied_short result)) (stands self.new) }
        ensures reliable { is_reliable self.old → is_reliable self.new }
        ensures kept { kept self.new ≡ kept self.old };
}

/// Answers the lines of a text up to the first bad one, whose number is the result. What they are told may still wait.
fn answer_each<I: Interpreter, W: Write>(
    alloc: Global,
    text: &[u8],
    interpreter: &mut I,
    output: &mut Output<W>,
    is_short: &mut bool,
) -> Result<Option<u64>, OutputError>
    requires fits { length text.now ≤ 2 ^ 30 }
    requires ready { I.is_ready interpreter.old }
    requires unshort { is_short.old ≡ false }
    ensures answers { I.is_reliable interpreter.old → (s : I.State) → I.stands interpreter.old s → OnOk result (TellsWhole (held W.contents output.old) (held W.contents output.new)
        (λ written. LeadsTo (AnsweredText I.does s text.now written is_short.new) (I.stands interpreter.new))) }
    ensures front { I.is_reliable interpreter.old → (s : I.State) → I.stands interpreter.old s → OnErr result (TellsFront (held W.contents output.old) (W.contents output.new.writer)
        (λ written. LeadsTo (AnsweredInPart I.does s text.now written is_short.new) (I.stands interpreter.new))) }
    ensures reliable { I.is_reliable interpreter.old → I.is_reliable interpreter.new }
    ensures kept { I.kept interpreter.new ≡ I.kept interpreter.old }
    ensures bad { IfOk result (λ bad. bad ≡ first_bad text.now) }
    ensures behind { OnOk result (TellsWhole (held W.contents output.old) (held W.contents output.new) (λ written. ⊤)) }
    ensures unbroken { OnOk result (write_failed output.new ≡ write_failed output.old) }
    ensures broken { result ≡ Err OutputError.Broken → write_failed output.new ≡ true }
{
    let mut number = 1u64;
    let mut rest = Some(text);
    let mut scratch = Scratch::new(alloc);
    while let Some(text) = rest {
        let (line, after) = first_line(text);
        match reading_of(alloc, line, &mut scratch, I::OUTLIVES_LINES)? {
            Reading::Skipped => {}
            Reading::Bad => {
                output.say(format_args!("bad line {number}"))?;
                return Ok(Some(number));
            }
            Reading::Asks(line) => {
                if let Some(reply) = interpreter.do_line(alloc, line) {
                    if reply.is_short() {
                        *is_short = true;
                    }
                    reply.give(output)?;
                }
            }
        }
        number += 1;
        rest = after;
    }
    Ok(None)
}

/// Answers the lines of a text, of at most 1 GiB, up to the first bad one, and writes what waits then. The result is
/// the number of the bad line that ended it. Where a reply was short, it says so.
///
/// Beside what its lines take it takes time linear in the text. Many replies go in one write.
pub fn answer_lines<I: Interpreter, W: Write>(
    alloc: Global,
    text: &[u8],
    interpreter: &mut I,
    output: &mut Output<W>,
    is_short: &mut bool,
) -> Result<Option<u64>, OutputError>
    requires fits { length text.now ≤ 2 ^ 30 }
    requires ready { I.is_ready interpreter.old }
    requires unshort { is_short.old ≡ false }
    // Each line in turn does what it asks for, and is told that; some first lines do, where a reply can't be given.
    ensures answers { I.is_reliable interpreter.old → (s : I.State) → I.stands interpreter.old s
        → AnswersLines I.does s (I.stands interpreter.new) text.now is_short.new result (held W.contents output.old) (W.contents output.new.writer) }
    ensures reliable { I.is_reliable interpreter.old → I.is_reliable interpreter.new }
    ensures kept { I.kept interpreter.new ≡ I.kept interpreter.old }
    // Whatever lines do, a result is the first bad line, what is written stands behind what was held, and a write fails
    // where it is told so.
    ensures leaves { LeavesOutput W.contents text.now result output.old output.new }
{
    let bad = answer_each(alloc, text, interpreter, output, is_short)?;
    output.flush()?;
    Ok(bad)
}
