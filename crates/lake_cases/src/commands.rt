//! The command lines of a case: each is run, and what it tells is added.

use crate::scripts::tell_written;
use crate::tables::tell_objects;
use case_calls::{Run, Script, SharedFolder};
use case_words::Transcript;
use folder_check::{FolderReader, NoProgress};
use lake_command::{check_command, command, table_command};
use lake_hints::ErrorOutput;
use lake_script::{Input, Output};
use lake_words::{Command, read_words};
use std::{fs, mem};
use store_core::MemoryStore;
use table_folder::{DirFolder, LoadFault, MemoryFolder, Stop, load};

/// Runs the command lines of a case, and adds what each writes, its exit status, and what it tells on standard error.
pub fn tell_runs(rt: &HostRuntime, script: &mut Script<'_>, told: &mut Transcript) {
    script.end_run(told.alloc);
    if let Some(path) = script.folder {
        let _removed = fs::remove_dir_all(rt, path);
        told.note(fs::create_dir(rt, path));
    }
    let store = mem::replace(&mut script.store.store, MemoryStore::new(told.alloc));
    let mut files = MemoryFolder::new(told.alloc, store, Stop::Never);
    for run in &script.runs {
        files.stop = run.stop;
        files = tell_run(rt, script, run, files, told);
    }
    if script.has("objects") {
        tell_files(rt, script, &mut files, told);
    }
}

/// Adds the names of the files that are left, each with its count of bytes.
fn tell_files(
    rt: &HostRuntime,
    script: &Script<'_>,
    files: &mut MemoryFolder,
    told: &mut Transcript,
) {
    match script.folder {
        Some(path) => match files_of(rt, path) {
            Ok(store) => {
                let mut store = store;
                tell_objects(&mut store, told);
            }
            Err(_fault) => told.lacks_memory(),
        },
        None => tell_objects(&mut files.store, told),
    }
}

/// The files of a folder on the disk.
fn files_of(rt: &HostRuntime, path: &str) -> Result<MemoryStore, LoadFault> {
    let mut folder = DirFolder::new(rt.clone()?, path)?;
    load(rt.alloc(), &mut folder)
}

/// Runs one command line over these files, and tells what came of it. The files that are left.
fn tell_run(
    rt: &HostRuntime,
    script: &Script<'_>,
    run: &Run<'_>,
    files: MemoryFolder,
    told: &mut Transcript,
) -> MemoryFolder {
    let mut written = Vec::new(told.alloc);
    let mut err = ErrorOutput::new(Vec::new(told.alloc));
    let words = words_of(run.words, told);
    let folder = SharedFolder::new(told.alloc, files, &run.rivals);
    let mut reader = FolderReader::new(folder, NoProgress);
    let status = run_command(rt, script, run, &words, &mut reader, &mut written, &mut err);
    tell_written(&written, script.number_of("last"), told);
    told.tell("status", &status);
    tell_written(&err.writer, usize::MAX, told);
    reader.folder.into_files()
}

/// Runs one command line, over the folder in memory unless the case is on the disk. Its status.
fn run_command(
    rt: &HostRuntime,
    script: &Script<'_>,
    run: &Run<'_>,
    words: &[String],
    reader: &mut FolderReader<SharedFolder<'_>, NoProgress>,
    written: &mut Vec<u8>,
    err: &mut ErrorOutput<Vec<u8>>,
) -> u8 {
    let mut input = Input::new(script.source(&run.input));
    let mut output = Output::new(rt.alloc(), script.sink(written));
    let exit = match read_words(rt.alloc(), words) {
        Ok(Command::Table(job)) if script.folder.is_none() => table_command(
            rt.alloc(),
            &mut reader.folder,
            job,
            &mut input,
            &mut output,
            err,
        ),
        Ok(Command::Check { .. }) if script.folder.is_none() => {
            check_command(rt.alloc(), reader, &mut output, err)
        }
        _ => command(rt, words, &mut input, &mut output, err, NoProgress),
    };
    exit.status
}

/// The words of a command line, behind the program's name.
fn words_of(text: &str, told: &mut Transcript) -> Vec<String> {
    let mut words = Vec::new(told.alloc);
    let name = told.copy_of("lake");
    told.note(words.push(name));
    for word in text.split_whitespace() {
        let word = word_of(word, told);
        told.note(words.push(word));
    }
    words
}

/// A word of a command line, in which `␣` stands for a space.
fn word_of(text: &str, told: &mut Transcript) -> String {
    let mut word = told.copy_of("");
    for letter in text.chars() {
        let letter = if letter == '␣' { ' ' } else { letter };
        told.note(word.push(letter));
    }
    word
}
