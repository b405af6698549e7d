//! A table for a Rattle program: by these names it is created, written and read, over a store or in a folder. Each is
//! passed on from a crate below, so that a program lists this crate alone; it has no code.
//!
//! What is to be done is a [`Job`]. Over a store [`run`] does it, which is told what is known of the log; in a folder
//! [`folder::run`] does it, and [`folder::save`] makes files of what it put. Whoever answers calls in another way makes
//! the job's [`JobSession`], and tells it the answer to each [`Request`]. `docs/STREAMS.md` shows a whole program.
#![tactic(auto)]

pub mod folder;

// What there is to do, and what is told of it.
pub use commit_core::CreateFault;
pub use sink_core::{
    GREATEST_NUMBER, MOST_ID_BYTES, MOST_ROWS, SinkEnd, SinkFault, SinkOutcome, SinkTask,
};
pub use snapshot_core::{CheckpointEnd, SnapshotFault, snapshot_text};
pub use source_core::{ReadEnd, ReadRows, TableSchema, TailFault, handed_text, read_text};
pub use table_jobs::{Creation, Job, JobEnd, StreamJob, run};
pub use table_log::{Loaded, LogFault};

// A store, what each version of the log in it holds, and what is known of that log.
pub use commit_core::history;
pub use log_reading::{KeptFile, Log, LogCache};
pub use store_core::{Flaky, MemoryStore, Names, Put, Store, StoreFault, Turn};

// Sessions, for whoever answers their calls.
pub use commit_core::{
    Candidate, CommitFault, CommitOutcome, CommitSession, Conflict, CreateSession, LoadSession,
    conflict,
};
pub use session_core::{Reply, Request, Session, Step, ask, drive};
pub use sink_core::SinkSession;
pub use snapshot_core::CheckpointSession;
pub use source_core::SourceSession;
pub use table_jobs::JobSession;

// Rows, offsets and schemas.
pub use json_text::{ArrayText, JsonRows, TextError};
pub use row_core::{RowFault, RowPrinter, Value, conforms, row_from_json, same_rows};
pub use schema_tree::{Field, Node, Primitive, Schema, SchemaFault};
pub use source_core::{Offset, offset_text, read_offset};

// What a log leaves.
pub use delta_replay::{Snapshot, SupportError, SupportFault};
