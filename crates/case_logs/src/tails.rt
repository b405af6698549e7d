//! What a read asks of the log of a case.

use crate::answers::tell_schema;
use case_words::Transcript;
use log_reading::{
    Log, SchemaText, changes_schema, first_standing, in_force, removes_rows, standing_at, supported,
};
use table_log::Version;

/// Adds what a read from a version on asks: the first version from which on none is missing; the schema of the commits
/// in front of the first that is missing or can't be read, or why their table isn't read; the text of the schema in
/// force; and a line for each version from there on that is missing, can't be read, takes rows away or changes the
/// schema.
pub fn tell_tail(log: &Log, version: &str, told: &mut Transcript) {
    let version = told.number(version);
    told.tell("first", &first_standing(log));
    let schema = match supported(told.alloc, log, None) {
        Ok(SchemaText { text: _, schema }) => Ok(schema),
        Err(error) => Err(error),
    };
    tell_schema("read", schema, told);
    match in_force(told.alloc, version, log, None) {
        Ok(Some(schema)) => {
            told.tell("in force", &schema.text);
            for at in version..log.next {
                tell_standing(&schema, log, at, at > version, told);
            }
        }
        Ok(None) => told.say("no schema"),
        Err(_error) => told.lacks_memory(),
    }
}

/// Adds a line for a version that a read stops at; a schema that changes counts behind the first one alone.
fn tell_standing(
    schema: &SchemaText<'_>,
    log: &Log,
    at: u64,
    is_behind: bool,
    told: &mut Transcript,
) {
    match standing_at(log, at) {
        None | Some(Version::Missing) => told.tell("missing", &at),
        Some(Version::Unreadable) => told.tell("unreadable", &at),
        Some(found @ Version::Commit(actions)) => {
            if removes_rows(actions) {
                told.tell("removes", &at);
            }
            if is_behind {
                tell_change(schema, found, at, told);
            }
        }
    }
}

/// Adds that a version changes the schema, if it does.
fn tell_change(schema: &SchemaText<'_>, found: &Version, at: u64, told: &mut Transcript) {
    match changes_schema(told.alloc, schema.text, &schema.schema, found) {
        Ok(true) => told.tell("changes", &at),
        Ok(false) => {}
        Err(_error) => told.lacks_memory(),
    }
}
