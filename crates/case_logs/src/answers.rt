//! What the snapshot of a log answers.

use crate::snapshots::{tell_domains, tell_files, tell_numbers, tell_protocol, tell_sizes};
use case_words::Transcript;
use delta_checkpoint::{checkpoint_name, checkpoint_version, print_checkpoint};
use delta_replay::{FileAction, Snapshot, SupportError};
use schema_tree::Schema;
use std::alloc::Global;
use store_core::GREATEST_VERSION;

/// Adds the versions of the protocol, the table's id, all of a list, or how long the lists are.
pub fn tell_list(snapshot: &Snapshot, word: &str, told: &mut Transcript) {
    match word {
        "protocol" => tell_protocol(snapshot, told),
        "metadata" => match snapshot.meta_data() {
            Some(meta_data) => told.tell("metadata", &meta_data.id),
            None => told.say("no metadata"),
        },
        "numbers" => tell_numbers(snapshot, told),
        "domains" => tell_domains(snapshot, told),
        "files" => tell_files(snapshot, told),
        "closed" => tell_closed(snapshot, told),
        "sizes" => tell_sizes(snapshot, told),
        _ => tell_newest(snapshot, word, "", told),
    }
}

/// Adds the applications whose streams are closed.
fn tell_closed(snapshot: &Snapshot, told: &mut Transcript) {
    match snapshot.closed(told.alloc) {
        Ok(applications) => {
            for application in &applications {
                told.tell("closed", application);
            }
        }
        Err(_error) => told.lacks_memory(),
    }
}

/// Adds the newest of what has this key: an application's number or whether its stream is closed, a domain, or a file.
pub fn tell_newest(snapshot: &Snapshot, word: &str, key: &str, told: &mut Transcript) {
    match word {
        "number" => match snapshot.last_number(key) {
            Some(number) => told.tell("number", &number),
            None => told.say("no number"),
        },
        "domain" => match snapshot.domain(key) {
            Some(metadata) => told.tell("domain", &metadata.configuration),
            None => told.say("no domain"),
        },
        "file" => match snapshot.file(key) {
            Some(FileAction::Add(add)) => told.tell_pair("file", &add.path.text(), &add.size),
            Some(FileAction::Remove(remove)) => told.tell("tombstone", &remove.path.text()),
            None => told.say("no file"),
        },
        "stream" if snapshot.is_closed(key) => told.say("closed"),
        "stream" => told.say("open"),
        _ => told.misspelled(),
    }
}

/// Adds the text of a schema behind a word, or why there is none.
pub fn tell_schema(
    word: &str,
    answer: Result<Schema<Global>, SupportError>,
    told: &mut Transcript,
) {
    match answer {
        Ok(schema) => match schema.to_text(told.alloc) {
            Ok(text) => told.tell(word, &text),
            Err(_error) => told.lacks_memory(),
        },
        Err(error) => tell_refused(&error, told),
    }
}

/// Adds whether a checkpoint is put, or why it isn't.
pub fn tell_put(answer: Result<(), SupportError>, told: &mut Transcript) {
    match answer {
        Ok(()) => told.say("put"),
        Err(error) => tell_refused(&error, told),
    }
}

/// Adds why a table isn't read or written.
pub fn tell_refused(error: &SupportError, told: &mut Transcript) {
    match error {
        SupportError::Memory => told.lacks_memory(),
        SupportError::Fault(fault) => told.refuse(fault),
    }
}

/// Adds the name and the lines of a version's checkpoint.
pub fn tell_checkpoint(snapshot: &Snapshot, version: &str, told: &mut Transcript) {
    let id = match snapshot.meta_data() {
        Some(meta_data) => meta_data.id.as_str(),
        None => "",
    };
    match checkpoint_name(told.alloc, told.number(version), id) {
        Ok(name) => told.say(&name),
        Err(_error) => told.lacks_memory(),
    }
    let bytes = printed(snapshot, version, told);
    told.add(&bytes);
}

/// The bytes of a version's checkpoint.
pub fn printed(snapshot: &Snapshot, version: &str, told: &mut Transcript) -> Vec<u8> {
    let version = told.number(version);
    if version > GREATEST_VERSION {
        told.misspelled();
        return Vec::new(told.alloc);
    }
    match print_checkpoint(told.alloc, snapshot, version) {
        Ok(bytes) => bytes,
        Err(_error) => {
            told.lacks_memory();
            Vec::new(told.alloc)
        }
    }
}

/// Adds the version whose checkpoint has a name.
pub fn tell_version(name: &str, told: &mut Transcript) {
    match checkpoint_version(told.alloc, name) {
        Ok(Some(version)) => told.tell("version", &version),
        Ok(None) => told.say("no checkpoint"),
        Err(_error) => told.lacks_memory(),
    }
}
