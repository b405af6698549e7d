//! Whether the table in a folder is sound, told, and the exit status.
ghost use Rattle.std.specs.Prelude.{◌≡◌, Err, IfOk, OnErr, OnOk, codes, map, option_map, true};
ghost use Rattle.std.specs.Io.KnownBytes.{Appends};
ghost use Rattle.std.specs.String.{string_bytes};
ghost use Rattle.lake_script.specs.Streams.{held, write_failed, WritesFront};
ghost use Rattle.lake_hints.specs.ErrorOutputs.{AreInTurn, TellsText, TellsSome};
ghost use Rattle.lake_hints.specs.Meanings.{IsMeaning};
ghost use Rattle.lake_command.specs.Checks.{TellsCheck, IsBeside, IsNothing, IsOfVerdict, IsTextTold, code_of_verdict, sound_text, status_of_verdict, too_large_text};
ghost use Rattle.lake_command.specs.ErrorTexts.{IsBesideFault, IsMeaningIn, lines_text};

use crate::exit::{DONE, Exit, REFUSED};
use crate::failure::Failure;
use crate::telling::{explain_code, not_written, tell_failure};
use folder_check::{CheckFault, FolderReader, Progress, Report};
use lake_hints::{ErrorOutput, explain};
use lake_script::{Output, OutputError};
use std::alloc::{AllocError, Global};
use std::io::Write;
use table_audit::Verdict;
use table_folder::Folder;

/// Judges the table in a folder, and tells the verdict: `sound N`, with N versions and the status 0, or `unsound V` and
/// a line that says why, with the status 1. Where no commit stands and nothing is unsound, there is no table, and
/// `refused K7 BadLog 0` is told in place of it, with the status 1. What lies beside the table is told on `err`, a line
/// each, and why the folder isn't judged as well, but for a data file that is too large to be read, which is told where
/// the verdict would be. Commits, the data files of batches and checkpoints are read, one at a time; nothing is written.
pub fn check_command<F: Folder, P: Progress, W: Write, E: Write>(
    alloc: Global,
    reader: &mut FolderReader<F, P>,
    output: &mut Output<W>,
    err: &mut ErrorOutput<E>,
) -> Exit
    // The verdict is told, over a steady folder that of its files, and on standard error what lies beside the table; or
    // there is a reason why none is, which is told. A data file that is told as too large is, over a steady folder.
    ensures ended { TellsCheck W.contents E.contents (F.is_steady reader.old.folder) (F.objects reader.old.folder)
        (F.fault_count reader.old.folder) (F.fault_count reader.new.folder) output.old output.new err.old err.new result }
    ensures untouched { F.is_steady reader.old.folder → F.objects reader.new.folder ≡ F.objects reader.old.folder }
    ensures steady { F.is_steady reader.old.folder → F.is_steady reader.new.folder }
{
    match reader.check(alloc) {
        Ok(report) => tell_report(alloc, &report, output, err),
        Err(CheckFault::TooLarge { name }) => tell_large(alloc, &name, output, err),
        Err(CheckFault::Folder(fault)) => tell_failure(&Failure::Loading(fault), output, err),
    }
}

/// Tells a verdict, what it means where it is a refusal, and what lies beside the table.
fn tell_report<W: Write, E: Write>(
    alloc: Global,
    report: &Report,
    output: &mut Output<W>,
    err: &mut ErrorOutput<E>,
) -> Exit
    ensures { IsTextTold W.contents E.contents (IsOfVerdict report.now.verdict)
        (AreInTurn (IsMeaningIn (code_of_verdict report.now.verdict)) (IsBeside report.now.beside))
        (status_of_verdict report.now.verdict) output.old output.new err.old err.new result }
{
    let exit = tell_verdict(alloc, &report.verdict, output, err);
    explain_code(code_of_verdict(&report.verdict), err);
    tell_beside(&report.beside, err);
    exit
}

/// Tells a verdict.
fn tell_verdict<W: Write, E: Write>(
    alloc: Global,
    verdict: &Verdict,
    output: &mut Output<W>,
    err: &mut ErrorOutput<E>,
) -> Exit
    ensures { IsTextTold W.contents E.contents (IsOfVerdict verdict.now) IsNothing (status_of_verdict verdict.now)
        output.old output.new err.old err.new result }
{
    match text_of(alloc, verdict) {
        Ok(text) => tell_text(&text, status_of(verdict), output, err),
        Err(_error) => not_written(OutputError::Memory, true, err),
    }
}

/// What is told of a verdict.
fn text_of(alloc: Global, verdict: &Verdict) -> Result<String, AllocError>
    ensures { IfOk result (λ text. IsOfVerdict verdict.now (string_bytes text)) }
{
    match verdict {
        Verdict::Sound { versions } => sound_text(alloc, *versions),
        Verdict::Unsound(unsound) => {
            let why = format!(in alloc; "{}", unsound.reason)?;
            let version = unsound.version;
            format!(in alloc; "unsound {version}\n{why}\n")
        }
    }
}

/// What is told of a sound log of so many versions. One without a commit is no table's.
fn sound_text(alloc: Global, versions: u64) -> Result<String, AllocError>
    ensures { IfOk result (λ text. string_bytes text ≡ sound_text versions) }
{
    if versions == 0 {
        return String::from_str(alloc, "refused K7 BadLog 0\n");
    }
    format!(in alloc; "sound {versions}\n")
}

/// The code of the refusal that is told in place of a verdict.
fn code_of_verdict(verdict: &Verdict) -> Option<&'static str>
    ensures { option_map (λ code. code.now) result ≡ code_of_verdict verdict.now }
{
    match verdict {
        Verdict::Sound { versions } if *versions == 0 => Some("K7"),
        _ => None,
    }
}

fn status_of(verdict: &Verdict) -> u8
    ensures { result ≡ status_of_verdict verdict.now }
{
    match verdict {
        Verdict::Sound { versions } if *versions > 0 => DONE,
        _ => REFUSED,
    }
}

/// Tells that a data file is too large, and what that means.
fn tell_large<W: Write, E: Write>(
    alloc: Global,
    name: &str,
    output: &mut Output<W>,
    err: &mut ErrorOutput<E>,
) -> Exit
    ensures { IsTextTold W.contents E.contents (λ text. text ≡ too_large_text name.now) (IsMeaning (codes "P9")) 1
        output.old output.new err.old err.new result }
{
    let exit = tell_large_name(alloc, name, output, err);
    explain("P9", err);
    exit
}

/// Tells that a data file is too large.
fn tell_large_name<W: Write, E: Write>(
    alloc: Global,
    name: &str,
    output: &mut Output<W>,
    err: &mut ErrorOutput<E>,
) -> Exit
    ensures { IsTextTold W.contents E.contents (λ text. text ≡ too_large_text name.now) IsNothing 1
        output.old output.new err.old err.new result }
{
    match format!(in alloc; "refused P9 TooLarge {name}\n") {
        Ok(text) => tell_text(&text, REFUSED, output, err),
        Err(_error) => not_written(OutputError::Memory, true, err),
    }
}

/// Tells a text, with a status.
fn tell_text<W: Write, E: Write>(
    text: &str,
    status: u8,
    output: &mut Output<W>,
    err: &mut ErrorOutput<E>,
) -> Exit
    ensures { IsTextTold W.contents E.contents (λ bytes. bytes ≡ text.now) IsNothing status
        output.old output.new err.old err.new result }
{
    match give_text(text, output) {
        Ok(()) => Exit {
            status,
            is_short: false,
        },
        Err(error) => not_written(error, false, err),
    }
}

/// Gives a text and writes it.
fn give_text<W: Write>(text: &str, output: &mut Output<W>) -> Result<(), OutputError>
    ensures told { OnOk result (Appends (held W.contents output.old) (W.contents output.new.writer) text.now) }
    ensures front { OnErr result (WritesFront (held W.contents output.old) (W.contents output.new.writer) text.now) }
    ensures broken { result ≡ Err OutputError.Broken → write_failed output.new ≡ true }
{
    output.show(text.as_bytes())?;
    output.flush()
}

/// Tells what lies beside a table, or why that isn't known.
fn tell_beside<E: Write>(beside: &Result<Vec<String>, CheckFault>, err: &mut ErrorOutput<E>)
    ensures { TellsSome E.contents (IsBeside beside.now) err.old err.new }
{
    match beside {
        Ok(lines) => tell_lines(lines, err),
        Err(fault) => tell_beside_fault(fault, err),
    }
}

/// Tells lines.
fn tell_lines<E: Write>(lines: &[String], err: &mut ErrorOutput<E>)
    ensures { TellsText E.contents err.old err.new (lines_text (map string_bytes lines.now)) }
{
    for line in lines {
        err.say(line);
    }
}

/// Tells why it isn't known what lies beside a table, and what that means.
fn tell_beside_fault<E: Write>(fault: &CheckFault, err: &mut ErrorOutput<E>)
    ensures { TellsSome E.contents (IsBesideFault fault.now) err.old err.new }
{
    err.say(format_args!("refused {fault}"));
    explain("F1", err)
}
