//! What refusals mean, where it is asked for, and the code of a failure.
ghost use Rattle.std.specs.Prelude.{◌≡◌, ℕ, List, IfSome, OnOk, Some, None, Err, map, option_map, true};
ghost use Rattle.std.specs.Io.KnownBytes.{Appends};
ghost use Rattle.refusal_texts.specs.Texts.{refusal_text};
ghost use Rattle.refusal_texts.specs.declared.refusal.Refusal.{Refusal};
ghost use Rattle.lake_script.specs.Streams.{held, write_failed};
ghost use Rattle.lake_command.specs.Codes.{TellsCode, code_in};
ghost use Rattle.lake_command.specs.ErrorTexts.{lines_text};
ghost use Rattle.lake_command.specs.Explaining.{IsEntryList, IsExplained};

use crate::exit::{DONE, Exit, MISUSED};
use crate::failure::Failure;
use crate::telling::{not_written, write_line};
use lake_hints::ErrorOutput;
use lake_script::{Output, OutputError};
use refusal_texts::{Refusal, faults, refusal_asked, refusals};
use std::io::Write;
use table_folder::SaveFault;

/// The code of a failure that is told as a refusal.
pub(crate) fn code_of(failure: &Failure) -> Option<&'static str>
    ensures code { option_map (λ code. code.now) result ≡ code_in failure.now }
    // It is the one that the failure's text tells.
    ensures told { IfSome result (λ code. TellsCode failure.now code.now) }
{
    match failure {
        Failure::Misused | Failure::BadLine(..) | Failure::Miscounted { .. } => None,
        Failure::NotRead => Some("F3"),
        Failure::Memory => Some("S6"),
        Failure::Loading(_) => Some("F1"),
        Failure::Saving(SaveFault::Lost) => Some("St1"),
        Failure::Saving(_) => Some("F2"),
    }
}

/// Tells what the refusal means that is asked for by its code or a reply that tells it, or what each of them means, on
/// the output. A code that no refusal has is misused words.
pub(crate) fn explain_command<W: Write, E: Write>(
    asked: Option<&str>,
    output: &mut Output<W>,
    err: &mut ErrorOutput<E>,
) -> Exit
    ensures { IsExplained W.contents E.contents (option_map (λ text. text.now) asked.entry) output.old output.new err.old err.new result }
{
    match asked {
        Some(text) => explain_one(text, output, err),
        None => explain_all(output, err),
    }
}

/// Tells what the refusal means that a text asks for.
fn explain_one<W: Write, E: Write>(
    asked: &str,
    output: &mut Output<W>,
    err: &mut ErrorOutput<E>,
) -> Exit
    ensures { IsExplained W.contents E.contents (Some asked.now) output.old output.new err.old err.new result }
{
    let Some(refusal) = refusal_asked(asked) else {
        err.say(format_args!("error: no refusal has the code '{asked}'"));
        return Exit {
            status: MISUSED,
            is_short: false,
        };
    };
    match write_line(refusal, output) {
        Ok(()) => Exit {
            status: DONE,
            is_short: false,
        },
        Err(error) => not_written(error, false, err),
    }
}

/// Tells what each refusal and each fault means.
fn explain_all<W: Write, E: Write>(output: &mut Output<W>, err: &mut ErrorOutput<E>) -> Exit
    ensures { IsExplained W.contents E.contents None output.old output.new err.old err.new result }
{
    match write_all(output) {
        Ok(()) => Exit {
            status: DONE,
            is_short: false,
        },
        Err(error) => not_written(error, false, err),
    }
}

/// Writes what each refusal and each fault means, a line each.
fn write_all<W: Write>(output: &mut Output<W>) -> Result<(), OutputError>
    ensures told { OnOk result ((entries : List Refusal) × (text : List ℕ) × IsEntryList entries text
        × Appends (held W.contents output.old) (W.contents output.new.writer) text) }
    ensures broken { result ≡ Err OutputError.Broken → write_failed output.new ≡ true }
{
    say_entries(refusals(), output)?;
    say_entries(faults(), output)?;
    output.flush()
}

/// Gives some entries, a line each.
fn say_entries<W: Write>(entries: &[Refusal], output: &mut Output<W>) -> Result<(), OutputError>
    ensures told { OnOk result (Appends (held W.contents output.old) (held W.contents output.new) (lines_text (map refusal_text entries.now))) }
    ensures broken { result ≡ Err OutputError.Broken → write_failed output.new ≡ true }
{
    for entry in entries {
        output.say(entry)?;
    }
    Ok(())
}
