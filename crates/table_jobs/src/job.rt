//! What there is to do to a table.

ghost use Rattle.std.specs.Prelude.{◌<◌, ◌≤◌, ◌^◌};

use sink_core::SinkTask;
use source_core::Offset;

/// A table that is to be created. The moment is in milliseconds since 1970-01-01.
#[derive(Drop)]
pub struct Creation {
    /// The table's id.
    pub id: String,
    /// The moment.
    pub at: u64,
    /// The text of its schema.
    pub schema: String,
    pub ghost timely: { at < 2 ^ 63 },
}

/// What is to be done to an application's stream, at a moment in milliseconds since 1970-01-01. So many versions are
/// tried at most.
#[derive(Drop)]
pub struct StreamJob<'r> {
    /// The application's id.
    pub application: String,
    /// What is to be done.
    pub task: SinkTask<'r>,
    /// The moment.
    pub at: u64,
    /// How many versions are tried at most.
    pub tries: u64,
    /// Whether the log is read by its checkpoints.
    pub use_checkpoints: bool,
    pub ghost timely: { at < 2 ^ 63 },
    pub ghost some: { 1 ≤ tries },
}

/// What is to be done to a table. With `use_checkpoints` the log is read by its checkpoints.
#[derive(Drop)]
pub enum Job<'r> {
    /// It is created.
    Create(Creation),
    /// What its log leaves is told.
    Load {
        use_checkpoints: bool,
    },
    /// The checkpoint of its newest version is put.
    Checkpoint {
        use_checkpoints: bool,
    },
    /// A batch is appended, or a stream is closed.
    Stream(StreamJob<'r>),
    /// At most `max` rows are read from a place on.
    Read {
        place: Offset,
        max: u64,
        use_checkpoints: bool,
    },
}
