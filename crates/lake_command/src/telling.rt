//! The reply to a job on the table in a folder, told, and the exit status.
ghost use Rattle.outcomes.specs.Lines.{with_newline};
ghost use Rattle.std.specs.Prelude.{◌≡◌, ◌≢◌, ◌||◌, ℕ, true, false, Ok, Err, IfSome, OnOk, OnErr, option_map};
ghost use Rattle.std.specs.Io.KnownBytes.{Appends};
ghost use Rattle.table_folder.specs.Traces.{Traced};
ghost use Rattle.table_log.specs.Restoring.{RestoresWell};
ghost use Rattle.lake_words.specs.Asked.{Work, work_view};
ghost use Rattle.lake_script.specs.ReplyView.{reply_text};
ghost use Rattle.lake_script.specs.Streams.{held, read_failed, unread, write_failed, WritesFront};
ghost use Rattle.lake_hints.specs.ErrorOutputs.{AreInTurn, TellsText, TellsSome};
ghost use Rattle.lake_command.specs.Answering.{KeepsFolder};
ghost use Rattle.lake_command.specs.Codes.{code_in};
ghost use Rattle.lake_command.specs.Endings.{EndsTableJob, EndsWith, IsLineTold, IsLineUntold, IsMisused, is_growth_refused};
ghost use Rattle.lake_command.specs.ErrorTexts.{IsFaultTold, IsMeaningIn, IsUnwrittenTold, failure_hint, is_told_as_reply};
ghost use Rattle.lake_command.specs.Status.{ends_early, has_refusal, is_refusal, is_want_of_memory, refuses, status_of_failure};
ghost use Rattle.lake_command.specs.Folders.{IsAnsweredJob, IsMiscounted, reads_input};

use crate::answering::answer;
use crate::exit::{DONE, Exit, MISUSED, REFUSED};
use crate::explaining::code_of;
use crate::failure::Failure;
use lake_hints::{ErrorOutput, explain, explain_reply, hint_reason, hint_refusal, note_done};
use lake_script::{Fault, Input, LineReply, Output, OutputError, RefusalText};
use lake_words::{Job, TableCommand};
use std::alloc::Global;
use std::fmt::Display;
use std::io::{Read, Write};
use table_folder::{Folder, LoadFault, SaveFault};

/// Does a job on the table in a folder. Replies, bad lines and want of memory for the rows go to `output`, other
/// failures to `err`, and so does what a refusal means.
pub fn table_command<F: Folder, R: Read, W: Write, E: Write>(
    alloc: Global,
    folder: &mut F,
    command: TableCommand<'_>,
    input: &mut Input<R>,
    output: &mut Output<W>,
    err: &mut ErrorOutput<E>,
) -> Exit
    // Over a steady folder whose checkpoints are sound, or with all commits read, a job that is done writes the reply
    // of the same line of a script over the folder's objects, and the folder then holds what that line leaves.
    ensures done { F.is_steady folder.old → RestoresWell command.entry.use_checkpoints (F.objects folder.old) → result.status ≡ DONE
        → IsAnsweredJob (work_view command.entry.job) (unread R.remaining input.old) (F.objects folder.old) (held W.contents output.old) (W.contents output.new.writer) (F.objects folder.new) }
    // However it ends, there is a reply or a failure, which has its cause; it is told where it belongs, with its status.
    ensures ended { EndsTableJob W.contents E.contents (F.is_steady folder.old × RestoresWell command.entry.use_checkpoints (F.objects folder.old)) (λ calls. Traced F.makes folder.old calls folder.new)
        command.entry.use_checkpoints (work_view command.entry.job) (unread R.remaining input.old) (read_failed input.new) (F.objects folder.old) (F.objects folder.new) (F.fault_count folder.old) (F.fault_count folder.new) output.old output.new err.old err.new result }
    // An append whose input has another count of lines than its words say isn't run: the folder isn't touched, and the
    // status is 2, unless the input can't be read, its bad line can't be written or memory runs out.
    ensures counted { IsMiscounted (work_view command.entry.job) (unread R.remaining input.old) → (folder.new ≡ folder.old)
        × IsMisused (unread R.remaining input.old) (read_failed input.new) (write_failed output.new) result }
    // A job but `append` leaves the input alone.
    ensures input_untouched { reads_input (work_view command.entry.job) ≡ false → input.new ≡ input.old }
    // However it ends, a steady folder stays steady, what stood stands, and a sound table stays sound.
    ensures keeps { F.is_steady folder.old → KeepsFolder (F.is_steady folder.new) (F.objects folder.old) (F.objects folder.new) }
{
    let mut rows = 0;
    match answer(alloc, folder, command, input, &mut rows) {
        Ok(reply) => tell(alloc, &reply, command.job, rows, output, err),
        Err(failure) => tell_failure(&failure, output, err),
    }
}

/// Tells a reply, and of one that refuses the job, which had so many rows, what that means.
fn tell<W: Write, E: Write>(
    alloc: Global,
    reply: &LineReply,
    job: Job<'_>,
    rows: u64,
    output: &mut Output<W>,
    err: &mut ErrorOutput<E>,
) -> Exit
    ensures told { result.status ≡ DONE
        → Appends (held W.contents output.old) (W.contents output.new.writer) (reply_text reply.now) }
    ensures done { result.status ≡ DONE → refuses (work_view job.entry) reply.now ≡ false }
    ensures ended { EndsWith W.contents E.contents (work_view job.entry) rows (Ok reply.now) output.old output.new err.old err.new result }
{
    let is_short = reply.is_short();
    if let Err(error) = give(reply, output) {
        return not_written(error, is_short, err);
    }
    if !is_refused(reply, job) {
        note_done(alloc, job, rows, err);
        return Exit {
            status: DONE,
            is_short,
        };
    }
    explain_reply(alloc, reply, err);
    hint_refusal(alloc, reply, job, rows, err);
    Exit {
        status: REFUSED,
        is_short,
    }
}

/// Gives a reply and writes it.
fn give<W: Write>(reply: &LineReply, output: &mut Output<W>) -> Result<(), OutputError>
    ensures told { OnOk result (Appends (held W.contents output.old) (W.contents output.new.writer) (reply_text reply.now)) }
    ensures front { OnErr result (WritesFront (held W.contents output.old) (W.contents output.new.writer) (reply_text reply.now)) }
    ensures broken { result ≡ Err OutputError.Broken → write_failed output.new ≡ true }
{
    reply.give(output)?;
    output.flush()
}

/// Tells that a reply wasn't written.
pub(crate) fn not_written<E: Write>(
    error: OutputError,
    is_short: bool,
    err: &mut ErrorOutput<E>,
) -> Exit
    ensures status { result.status ≡ REFUSED }
    ensures short { result.is_short ≡ (is_short || is_growth_refused error) }
    ensures told { TellsSome E.contents IsUnwrittenTold err.old err.new }
{
    tell_fault(Fault::NotWritten, "F4", err);
    Exit {
        status: REFUSED,
        is_short: is_short || is_memory(error),
    }
}

/// Whether a growth was refused.
fn is_memory(error: OutputError) -> bool
    ensures { result ≡ is_growth_refused error }
{
    matches!(error, OutputError::Memory)
}

/// Tells a fault of the program itself, and what its code means.
pub(crate) fn tell_fault<E: Write>(fault: Fault, code: &str, err: &mut ErrorOutput<E>)
    ensures { TellsSome E.contents (IsFaultTold fault code.now) err.old err.new }
{
    err.say(RefusalText(fault));
    explain(code, err)
}

/// Tells why there is no reply, and what that means. A bad line goes where replies go, and what is wrong with it to
/// `err`.
pub(crate) fn tell_failure<W: Write, E: Write>(
    failure: &Failure,
    output: &mut Output<W>,
    err: &mut ErrorOutput<E>,
) -> Exit
    ensures status { result.status ≢ DONE }
    ensures ended { (work : Work) (rows : ℕ) → EndsWith W.contents E.contents work rows (Err failure.now) output.old output.new err.old err.new result }
{
    let is_short = is_want_of_memory(failure);
    if let Err(error) = tell_line(failure, output, err) {
        return not_written(error, is_short, err);
    }
    explain_failure(failure, err);
    Exit {
        status: status_of(failure),
        is_short,
    }
}

/// Tells the line of a failure, where replies go or on `err`.
fn tell_line<W: Write, E: Write>(
    failure: &Failure,
    output: &mut Output<W>,
    err: &mut ErrorOutput<E>,
) -> Result<(), OutputError>
    ensures told { OnOk result (IsLineTold W.contents E.contents failure.now output.old output.new err.old err.new) }
    ensures untold { OnErr result (IsLineUntold W.contents failure.now output.old output.new err.old err.new) }
    ensures broken { result ≡ Err OutputError.Broken → write_failed output.new ≡ true }
{
    if is_told_as_reply(failure) {
        return write_line(failure, output);
    }
    err.say(failure);
    Ok(())
}

/// Whether the line of a failure goes where replies go.
fn is_told_as_reply(failure: &Failure) -> bool
    ensures { result ≡ is_told_as_reply failure.now }
{
    matches!(failure, Failure::BadLine(..) | Failure::Memory)
}

/// Tells what a failure means that is a refusal, and what more there is to say.
fn explain_failure<E: Write>(failure: &Failure, err: &mut ErrorOutput<E>)
    ensures { TellsSome E.contents (AreInTurn (IsMeaningIn (code_in failure.now)) (λ hint. hint ≡ failure_hint failure.now)) err.old err.new }
{
    explain_code(code_of(failure), err);
    hint(failure, err)
}

/// Tells what a code means, where there is one.
pub(crate) fn explain_code<E: Write>(code: Option<&'static str>, err: &mut ErrorOutput<E>)
    ensures { TellsSome E.contents (IsMeaningIn (option_map (λ code. code.now) code.entry)) err.old err.new }
{
    if let Some(code) = code {
        explain(code, err);
    }
}

/// Says what is wrong with a bad line, what to do about the folder, where it tells why it failed and there is something
/// to do, and that no memory was left.
fn hint<E: Write>(failure: &Failure, err: &mut ErrorOutput<E>)
    ensures { TellsText E.contents err.old err.new (failure_hint failure.now) }
{
    match failure {
        Failure::BadLine(_number, flaw) => err.say(format_args!("hint: the line {flaw}")),
        Failure::Loading(LoadFault::NotLoaded { reason, .. }) => hint_reason(*reason, err),
        Failure::Saving(SaveFault::NotSaved { reason, .. }) => hint_reason(*reason, err),
        Failure::Loading(LoadFault::Memory) | Failure::Saving(SaveFault::Memory) => {
            err.say("hint: memory ran out: make room for more and run the same command again")
        }
        _ => {}
    }
}

/// Gives a line and writes it.
pub(crate) fn write_line<D: Display + Drop, W: Write>(
    line: D,
    output: &mut Output<W>,
) -> Result<(), OutputError>
    ensures told { OnOk result (IfSome (D.output line) (λ text. Appends (held W.contents output.old) (W.contents output.new.writer) (with_newline text))) }
    ensures front { OnErr result (IfSome (D.output line) (λ text. WritesFront (held W.contents output.old) (W.contents output.new.writer) (with_newline text))) }
    ensures broken { result ≡ Err OutputError.Broken → write_failed output.new ≡ true }
{
    output.say(line)?;
    output.flush()
}

fn status_of(failure: &Failure) -> u8
    ensures { result ≡ status_of_failure failure.now }
{
    match failure {
        Failure::Misused | Failure::BadLine(..) | Failure::Miscounted { .. } => MISUSED,
        _ => REFUSED,
    }
}

fn is_want_of_memory(failure: &Failure) -> bool
    ensures { result ≡ is_want_of_memory failure.now }
{
    matches!(
        failure,
        Failure::Memory | Failure::Loading(LoadFault::Memory) | Failure::Saving(SaveFault::Memory)
    )
}

/// Whether a reply to a job refuses it. A history that ends early says so in its last line.
fn is_refused(reply: &LineReply, job: Job<'_>) -> bool
    ensures { result ≡ refuses (work_view job.entry) reply.now }
{
    match reply {
        LineReply::Bytes(text) => text_refuses(text, job),
        LineReply::Digits(text) => text_refuses(text.as_bytes(), job),
        LineReply::Created
        | LineReply::SinkTold(_)
        | LineReply::Checkpointed(_)
        | LineReply::Put(_)
        | LineReply::Noted => false,
        _ => true,
    }
}

/// Whether a text that replies to a job refuses it.
fn text_refuses(text: &[u8], job: Job<'_>) -> bool
    ensures { result ≡ (is_refusal text.now || ends_early (work_view job.entry) text.now) }
{
    is_refusal(text) || (matches!(job, Job::History) && has_refusal(text))
}

/// Whether a text begins with `refused `.
fn is_refusal(text: &[u8]) -> bool
    ensures { result ≡ is_refusal text.now }
{
    text.starts_with(b"refused ")
}

/// Whether a line of a text begins with `refused `.
fn has_refusal(text: &[u8]) -> bool
    ensures { result ≡ has_refusal text.now }
{
    for line in text.split(|byte| *byte == b'\n') {
        if is_refusal(line) {
            return true;
        }
    }
    false
}
