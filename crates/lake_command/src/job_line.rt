//! Which lines of a script a job on a folder asks for.

use lake_script::Job;

/// A line of a script that a job on a folder asks for. Moments are in milliseconds.
#[derive(Drop)]
pub(crate) enum JobLine<'a> {
    /// Creates the table.
    Create {
        id: &'a str,
        at: u64,
        schema: &'a str,
    },
    /// Puts or reads rows, closes a stream, or puts a checkpoint.
    Job(Job<'a>),
    /// Tells the table's snapshot.
    Snapshot,
    /// Tells what each version holds.
    History,
}
