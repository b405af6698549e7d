//! What the program can be asked for.

/// What the program is asked for.
#[derive(Clone, Copy)]
pub enum Command<'a> {
    /// Runs the script on standard input. Where `use_checkpoints` is false, tables are replayed from
    /// version 0 and no checkpoint is used.
    Script { use_checkpoints: bool },
    /// Does a job on the table in a folder.
    Table(TableCommand<'a>),
    /// Says whether the table in a folder is sound.
    Check { folder: &'a str },
    /// Tells what a refusal means, by its code or a reply that tells it, or what each of them means.
    Explain { asked: Option<&'a str> },
}

/// A job, and the folder of the table that it is done on.
#[derive(Clone, Copy)]
pub struct TableCommand<'a> {
    /// The path of the table's folder.
    pub folder: &'a str,
    /// Whether the log is read from its newest checkpoint, and otherwise from version 0.
    pub use_checkpoints: bool,
    /// The job.
    pub job: Job<'a>,
}

/// What is to be done on a table. Moments (`at`) are in milliseconds since 1970-01-01, up to 999,999,999,999,999.
#[derive(Clone, Copy)]
pub enum Job<'a> {
    /// Creates the table.
    Create {
        id: &'a str,
        schema: &'a str,
        at: u64,
    },
    /// Puts the rows on standard input as a batch, under a number of the application.
    Append {
        application: &'a str,
        number: u64,
        at: u64,
        /// How often a commit is tried, 1 to 64.
        tries: u64,
        /// How many rows the input has, where the words say it.
        rows: Option<u64>,
    },
    /// Closes the application's stream.
    Close {
        application: &'a str,
        at: u64,
        tries: u64,
    },
    /// Puts the batches on standard input, with that many workers.
    Load {
        workers: u64,
        at: u64,
        tries: u64,
    },
    /// Reads at most `max` rows from an offset on, up to 65,536.
    Tail {
        max: u64,
        offset: &'a str,
    },
    /// Prints the table's snapshot.
    Snapshot,
    /// Puts a checkpoint of the newest version.
    Checkpoint,
    /// Prints what each version holds.
    History,
}
