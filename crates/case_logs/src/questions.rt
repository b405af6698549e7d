//! Logs that grow commit by commit, and the questions that each is asked.
//!
//! A line `== NAME` begins a case, the log without commits. A line that begins with `>> ` is a question. Any other line
//! is one of the commit that is begun, which the next question ends; but these are of the lines that are begun, and end
//! no commit:
//!
//! - `grow FILES APPLICATIONS`: they are followed by those of so many files, and of so many applications' numbers,
//!   named by their places;
//! - `restore V`: they are read as that version's checkpoint, and its snapshot takes the place of the log's;
//! - `spoil V`: they are read as that version's checkpoint, cut before each byte, and with each byte changed to 00 and
//!   to FF. It tells how many of these are read, and how many are refused by each code;
//! - `object NAME`: they are put under that name into the store;
//! - `load` and `load restore`: what the log of the store is loaded as, with `restore` from its newest checkpoint that
//!   reads well.
//!
//! The others are:
//!
//! - `commit` has no answer;
//! - `missing`: the next version is missing;
//! - `again V`: the checkpoint of a version is printed, and the log goes on with the snapshot that is read from it;
//! - `protocol` and `metadata`: the versions of a reader and a writer with their features, and the table's id;
//! - `number APP`, `domain NAME` and `file PATH`: the application's number, what the domain keeps, and the file's
//!   size or that it left the table, by its decoded path;
//! - `numbers`, `domains` and `files`: all applications, domains, and files with those that left the table, a line
//!   each;
//! - `closed` and `stream APP`: the applications whose streams are closed, a line each, and whether that one is;
//! - `sizes`: how many applications, domains, files, and files that left the table there are;
//! - `read` and `write`: the schema's text, or why the table isn't read or written;
//! - `schema`: the same whatever the protocol asks, or why there is none;
//! - `checkpoint V`: the name and the lines of that version's checkpoint;
//! - `put`: whether a checkpoint is put, or why it isn't;
//! - `name NAME`: the version whose checkpoint has that name;
//! - `tail V`: what a read from that version on asks of the versions, of which each commit with a line is one.

use crate::answers::{
    tell_checkpoint, tell_list, tell_newest, tell_put, tell_schema, tell_version,
};
use crate::growing::Growing;
use crate::tails::tell_tail;
use case_words::{Transcript, add_line, head};

/// Answers the questions of an input, and adds the answers.
pub fn tell_logs(text: &str, told: &mut Transcript) {
    let mut log = Growing::new(told.alloc);
    for (place, line) in text.split('\n').enumerate() {
        if let Some(question) = line.strip_prefix(">> ") {
            take(&mut log, question, told);
        } else if line.starts_with("== ") {
            log = Growing::new(told.alloc);
            told.say(line);
        } else if !line.is_empty() {
            add_line(&mut log.lines, line, told);
        }
        told.end_line(place.saturating_add(1));
    }
}

/// Does what a question says.
fn take(log: &mut Growing, question: &str, told: &mut Transcript) {
    let (word, rest) = head(question);
    match word {
        "grow" => log.grow(rest, told),
        "restore" => log.restore(rest, told),
        "spoil" => log.tell_spoiled(rest, told),
        "object" => log.put(rest, told),
        "load" => log.tell_loaded(rest == "restore", told),
        _ => {
            log.end_commit(told);
            answer(log, word, rest, told);
        }
    }
}

/// Adds the answer to a question, in front of which the commit that is begun was ended.
fn answer(log: &mut Growing, word: &str, rest: &str, told: &mut Transcript) {
    let snapshot = &log.snapshot;
    match word {
        "commit" => {}
        "missing" => log.skip(),
        "again" => log.print_and_restore(rest, told),
        "read" => tell_schema("schema", snapshot.supports_read(told.alloc), told),
        "write" => tell_schema("schema", snapshot.supports_write(told.alloc), told),
        "schema" => tell_schema("schema", snapshot.schema(told.alloc), told),
        "put" => tell_put(snapshot.supports_checkpoint(told.alloc), told),
        "checkpoint" => tell_checkpoint(snapshot, rest, told),
        "name" => tell_version(rest, told),
        "tail" => tell_tail(&log.kept, rest, told),
        _ if rest.is_empty() => tell_list(snapshot, word, told),
        _ => tell_newest(snapshot, word, rest, told),
    }
}
