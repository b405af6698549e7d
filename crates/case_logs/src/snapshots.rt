//! What stands in a snapshot, a line each.

use case_words::Transcript;
use delta_replay::Snapshot;

/// Adds the versions of a reader and a writer, with their features.
pub fn tell_protocol(snapshot: &Snapshot, told: &mut Transcript) {
    let Some(protocol) = snapshot.protocol() else {
        return told.say("no protocol");
    };
    let reader = protocol.min_reader_version;
    let writer = protocol.min_writer_version;
    told.tell_pair("protocol", &reader, &writer);
    for name in &protocol.reader_features {
        told.tell("reader feature", name);
    }
    for name in &protocol.writer_features {
        told.tell("writer feature", name);
    }
}

/// Adds all applications with their numbers.
pub fn tell_numbers(snapshot: &Snapshot, told: &mut Transcript) {
    match snapshot.apps(told.alloc) {
        Ok(numbers) => {
            for number in &numbers {
                told.tell_pair("number", &number.app_id, &number.version);
            }
        }
        Err(_error) => told.lacks_memory(),
    }
}

/// Adds all domains with what they keep.
pub fn tell_domains(snapshot: &Snapshot, told: &mut Transcript) {
    match snapshot.domains(told.alloc) {
        Ok(domains) => {
            for metadata in &domains {
                told.tell_pair("domain", &metadata.domain, &metadata.configuration);
            }
        }
        Err(_error) => told.lacks_memory(),
    }
}

/// Adds all files with their sizes, and those that left the table.
pub fn tell_files(snapshot: &Snapshot, told: &mut Transcript) {
    match snapshot.files(told.alloc) {
        Ok(files) => {
            for add in &files {
                told.tell_pair("file", &add.path.text(), &add.size);
            }
        }
        Err(_error) => told.lacks_memory(),
    }
    match snapshot.tombstones(told.alloc) {
        Ok(tombstones) => {
            for remove in &tombstones {
                told.tell("tombstone", &remove.path.text());
            }
        }
        Err(_error) => told.lacks_memory(),
    }
}

/// Adds how many applications, domains, files, and files that left the table there are.
pub fn tell_sizes(snapshot: &Snapshot, told: &mut Transcript) {
    tell_size("numbers", snapshot.apps(told.alloc), told);
    tell_size(" domains", snapshot.domains(told.alloc), told);
    tell_size(" files", snapshot.files(told.alloc), told);
    tell_size(" tombstones", snapshot.tombstones(told.alloc), told);
    told.text("\n");
}

/// Adds how many of a kind there are.
fn tell_size<T, E: Drop>(kind: &str, found: Result<Vec<&T>, E>, told: &mut Transcript) {
    told.text(kind);
    match found {
        Ok(found) => told.with(" ", &found.len()),
        Err(_error) => told.lacks_memory(),
    }
}
