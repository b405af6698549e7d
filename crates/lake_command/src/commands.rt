//! One command, from its words to its exit status.
ghost use Rattle.std.specs.Prelude.{◌≡◌, map, IfOk, true};
ghost use Rattle.clap.specs.Words.{kind_of};
ghost use Rattle.lake_command.specs.Status.{status_of, status_of_kind};
ghost use Rattle.lake_script.specs.Streams.{unread, read_failed};
ghost use Rattle.lake_words.specs.Asked.{work_view};
ghost use Rattle.lake_command.specs.Checks.{ChecksDisk};
ghost use Rattle.lake_command.specs.Commands.{DoesCommand};
ghost use Rattle.lake_command.specs.Endings.{AreCallsAt, EndsDiskJob};
ghost use Rattle.lake_command.specs.ErrorTexts.{IsEndTold};
ghost use Rattle.lake_command.specs.Scripts.{EndsScript};
ghost use Rattle.lake_hints.specs.ErrorOutputs.{TellsSome};

use crate::checking::check_command;
use crate::exit::{DONE, Exit, MISUSED, REFUSED};
use crate::explaining::explain_command;
use crate::failure::Failure;
use crate::telling::{table_command, tell_failure, tell_fault};
use clap::Error;
use clap::error::ErrorKind;
use folder_check::{FolderReader, Progress};
use lake_hints::{ErrorOutput, tell_bad_line};
use lake_script::{End, Fault, Input, Output};
use lake_words::{Command, TableCommand, read_words};
use std::alloc::{AllocError, Global};
use std::convert::AsStr;
use std::io::{Read, Write};
use std::rt::Files;
use store_core::MemoryStore;
use table_folder::{DirFolder, Folder, LoadFault};
use world_script::run;

/// The status of words that ask for help, that are refused, or that were too much to read.
fn misused(error: &Error) -> u8
    ensures { result ≡ status_of_kind (kind_of error.now) }
{
    match error.kind() {
        ErrorKind::DisplayHelp | ErrorKind::DisplayVersion => DONE,
        ErrorKind::OutOfMemory => REFUSED,
        _ => MISUSED,
    }
}

/// Tells what `clap` says of words that it can't read, or the help that they ask for.
fn tell_misread<E: Write>(error: Error, err: &mut ErrorOutput<E>) -> Exit
    ensures status { result.status ≡ status_of_kind (kind_of error) }
    ensures short { kind_of error ≡ ErrorKind.OutOfMemory → result.is_short ≡ true }
{
    let status = misused(&error);
    let is_short = error.kind() == ErrorKind::OutOfMemory;
    err.show(error);
    Exit { status, is_short }
}

/// The status of a script that ended so. Why a line is bad, by what was kept of it, and a fault of the program itself
/// are told on `err`.
fn ended<E: Write>(alloc: Global, end: End, kept: Option<&[u8]>, err: &mut ErrorOutput<E>) -> u8
    ensures status { result ≡ status_of end }
    ensures told { TellsSome E.contents (IsEndTold end) err.old err.new }
{
    match end {
        End::Done => DONE,
        End::BadLine(number) => {
            tell_bad_line(alloc, number, kept, err);
            MISUSED
        }
        End::NotRead => {
            tell_fault(Fault::NotRead, "F3", err);
            REFUSED
        }
        End::NotWritten => {
            tell_fault(Fault::NotWritten, "F4", err);
            REFUSED
        }
    }
}

/// The folder of that path on the disk.
fn open<H: Files + AllocGlobal + Clone + Drop>(
    rt: &H,
    path: &str,
) -> Result<DirFolder<H>, AllocError>
    ensures path { IfOk result (λ folder. ⟦<DirFolder<H> as Folder>⟧.path folder ≡ path.now) }
    ensures faults { IfOk result (λ folder. ⟦<DirFolder<H> as Folder>⟧.fault_count folder ≡ 0) }
{
    DirFolder::new(rt.clone()?, path)
}

/// Runs a script over a store in which nothing stands yet, and tells on `err` why its bad line is one.
fn script_command<R: Read, W: Write, E: Write>(
    alloc: Global,
    use_checkpoints: bool,
    input: &mut Input<R>,
    output: &mut Output<W>,
    err: &mut ErrorOutput<E>,
) -> Exit
    ensures { EndsScript W.contents E.contents use_checkpoints (unread R.remaining input.old) (read_failed input.new) output.old output.new err.old err.new result }
{
    let store = MemoryStore::new(alloc);
    let ran = run(alloc, input, output, store, use_checkpoints);
    Exit {
        status: ended(alloc, ran.outcome.end, ran.bad.as_deref(), err),
        is_short: ran.outcome.is_short(),
    }
}

/// Judges the table in a folder on the disk.
fn check_on_disk<H: Files + AllocGlobal + Clone + Drop, P: Progress + Drop, W: Write, E: Write>(
    rt: &H,
    path: &str,
    progress: P,
    output: &mut Output<W>,
    err: &mut ErrorOutput<E>,
) -> Exit
    ensures { ChecksDisk W.contents E.contents ⟦<DirFolder<H> as Folder>⟧.path ⟦<DirFolder<H> as Folder>⟧.fault_count path.now
        output.old output.new err.old err.new result }
{
    match open(rt, path) {
        Ok(folder) => {
            let mut reader = FolderReader::new(folder, progress);
            check_command(rt.alloc(), &mut reader, output, err)
        }
        Err(_error) => tell_failure(&Failure::Loading(LoadFault::Memory), output, err),
    }
}

/// Does a job on the table in a folder on the disk.
fn table_on_disk<H: Files + AllocGlobal + Clone + Drop, R: Read, W: Write, E: Write>(
    rt: &H,
    command: TableCommand<'_>,
    input: &mut Input<R>,
    output: &mut Output<W>,
    err: &mut ErrorOutput<E>,
) -> Exit
    ensures { EndsDiskJob W.contents E.contents (AreCallsAt ⟦<DirFolder<H> as Folder>⟧.path ⟦<DirFolder<H> as Folder>⟧.fault_count ⟦<DirFolder<H> as Folder>⟧.makes command.entry.folder.now)
        command.entry.use_checkpoints (work_view command.entry.job) (unread R.remaining input.old) (read_failed input.new) input.old input.new output.old output.new err.old err.new result }
{
    let Ok(folder) = open(rt, command.folder) else {
        return tell_failure(&Failure::Loading(LoadFault::Memory), output, err);
    };
    let mut folder = folder;
    table_command(rt.alloc(), &mut folder, command, input, output, err)
}

/// Runs the command that the words ask for: a script over a store in which nothing stands yet, or a job on the table in
/// a folder on the disk, of which [`table_command`] tells what is claimed over any folder, or a check of one, of which
/// [`check_command`] does, or it tells what refusals mean. Replies go to `output`. What `clap` says of the words, the
/// program's own faults, why a line of a script is bad, what refusals mean and what lies beside a table go to `err`,
/// and how far a check is to `progress`.
pub fn command<
    H: Files + AllocGlobal + Clone + Drop,
    S: AsStr,
    R: Read,
    W: Write,
    E: Write,
    P: Progress + Drop,
>(
    rt: &H,
    words: &[S],
    input: &mut Input<R>,
    output: &mut Output<W>,
    err: &mut ErrorOutput<E>,
    progress: P,
) -> Exit
    ensures { DoesCommand ⟦<DirFolder<H> as Folder>⟧.path ⟦<DirFolder<H> as Folder>⟧.fault_count ⟦<DirFolder<H> as Folder>⟧.makes R.remaining W.contents E.contents
        (map S.text words.now) input.old input.new output.old output.new err.old err.new result }
{
    let alloc = rt.alloc();
    match read_words(alloc, words) {
        Ok(Command::Table(command)) => table_on_disk(rt, command, input, output, err),
        Ok(Command::Check { folder }) => check_on_disk(rt, folder, progress, output, err),
        Ok(Command::Explain { asked }) => explain_command(asked, output, err),
        Ok(Command::Script { use_checkpoints }) => {
            script_command(alloc, use_checkpoints, input, output, err)
        }
        Err(error) => tell_misread(error, err),
    }
}
