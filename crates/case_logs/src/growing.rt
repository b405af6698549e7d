//! A log that grows commit by commit, and its snapshot.

use crate::answers::printed;
use crate::snapshots::tell_numbers;
use case_words::{Transcript, add_many, add_one, changed};
use delta_actions::{Action, ActionFault, read_commit};
use delta_checkpoint::{CheckpointError, CheckpointFault, read_checkpoint};
use delta_replay::{Snapshot, closes};
use log_reading::{Log, Standing};
use std::alloc::Global;
use std::mem;
use store_core::{MemoryStore, Store};
use table_log::{LogFault, load, version_of};

/// A log's snapshot, its versions one by one, the lines that are begun, and a store beside them.
pub struct Growing {
    pub snapshot: Snapshot,
    pub kept: Log,
    pub lines: Vec<u8>,
    store: MemoryStore,
}

// One call where it is dropped.
impl Drop for Growing {
    fn drop(self) {
        let Growing {
            snapshot: _,
            kept: _,
            lines: _,
            store: _,
        } = self;
    }
}

impl Growing {
    /// A log without commits, beside a store in which nothing stands.
    pub fn new(alloc: Global) -> Growing {
        Growing {
            snapshot: Snapshot::new(alloc),
            kept: Log::new(alloc),
            lines: Vec::new(alloc),
            store: MemoryStore::new(alloc),
        }
    }

    /// The lines that are begun; none are behind them.
    fn take(&mut self, told: &Transcript) -> Vec<u8> {
        mem::replace(&mut self.lines, Vec::new(told.alloc))
    }

    /// Ends the commit that is begun, if one is: it is kept as the next version, and the snapshot takes its actions in.
    /// A commit that can't be read is told, and changes no snapshot.
    pub fn end_commit(&mut self, told: &mut Transcript) {
        if self.lines.is_empty() {
            return;
        }
        let bytes = self.take(told);
        self.keep(&bytes, told);
        match read_commit(told.alloc, &bytes) {
            Ok(actions) => self.take_in(actions, told),
            Err(ActionFault::Memory) => told.lacks_memory(),
            Err(fault) => told.refuse(&fault),
        }
    }

    /// Keeps a commit as the next version.
    fn keep(&mut self, bytes: &[u8], told: &mut Transcript) {
        let version = self.kept.next;
        match version_of(told.alloc, bytes) {
            Ok(found) => told.note(self.kept.standing.push(Standing { version, found })),
            Err(_error) => told.lacks_memory(),
        }
        self.skip();
    }

    /// The next version is missing.
    pub fn skip(&mut self) {
        self.kept.next = self.kept.next.saturating_add(1);
    }

    /// The snapshot takes the actions of a commit in. Adds the applications whose streams they close.
    fn take_in(&mut self, actions: Vec<Action>, told: &mut Transcript) {
        for action in &actions {
            tell_close(action, told);
        }
        told.note(self.snapshot.apply(told.alloc, actions));
    }

    /// Adds lines to those that are begun: `FILES APPLICATIONS`, so many files, and so many applications' numbers,
    /// named by their places.
    pub fn grow(&mut self, sizes: &str, told: &mut Transcript) {
        let (files, applications) = told.halves(sizes);
        let files = told.number(files);
        let before = "{\"add\":{\"path\":\"";
        let behind = ".parquet\",\"size\":1,\"dataChange\":true}}";
        add_many(&mut self.lines, files, before, behind, told);
        let applications = told.number(applications);
        let before = "{\"txn\":{\"appId\":\"";
        add_many(
            &mut self.lines,
            applications,
            before,
            "\",\"version\":1}}",
            told,
        );
    }

    /// Reads the lines that are begun as a version's checkpoint in place of a commit: its snapshot takes the place of
    /// the log's. A refusal is told, and changes nothing.
    pub fn restore(&mut self, version: &str, told: &mut Transcript) {
        let version = told.number(version);
        let bytes = self.take(told);
        match read_checkpoint(told.alloc, &bytes, version) {
            Ok(snapshot) => self.snapshot = snapshot,
            Err(CheckpointError::Memory) => told.lacks_memory(),
            Err(CheckpointError::Fault(fault)) => told.refuse(&fault),
        }
    }

    /// Prints the checkpoint of a version, and goes on with the snapshot that is read from it.
    pub fn print_and_restore(&mut self, version: &str, told: &mut Transcript) {
        self.lines = printed(&self.snapshot, version, told);
        self.restore(version, told);
    }

    /// Puts the lines that are begun under a name into the store, unless the name stands. The log stays.
    pub fn put(&mut self, name: &str, told: &mut Transcript) {
        let bytes = self.take(told);
        match self.store.put_absent(name, bytes) {
            Ok(_put) => {}
            Err(_fault) => told.lacks_memory(),
        }
    }

    /// Adds what the log of the store is loaded as: the version that comes next, and all applications with their
    /// numbers, a line each; or the first version of those that are read that is missing or can't be read.
    pub fn tell_loaded(&mut self, restores: bool, told: &mut Transcript) {
        match load(told.alloc, &mut self.store, restores) {
            Ok(loaded) => {
                told.tell("next", &loaded.next);
                tell_numbers(&loaded.snapshot, told);
            }
            Err(LogFault::BadLog { version }) => told.tell("bad log", &version),
            Err(_fault) => told.lacks_memory(),
        }
    }

    /// Adds how many of the texts are read as a version's checkpoint, and how many are refused by each code, that are
    /// the lines that are begun, cut before each byte, and with each byte changed to 00 and to FF.
    pub fn tell_spoiled(&mut self, version: &str, told: &mut Transcript) {
        let version = told.number(version);
        let bytes = self.take(told);
        let mut counts = [("read", 0), ("K1", 0), ("K2", 0), ("K3", 0), ("K4", 0)];
        for at in 0..bytes.len() {
            add_one(&mut counts, code_of(&bytes[..at], version, told));
            for byte in [0, 255] {
                let spoiled = changed(&bytes, at, byte, told);
                add_one(&mut counts, code_of(&spoiled, version, told));
            }
        }
        told.tell_counts(&counts);
    }
}

/// Adds the application whose stream an action closes.
fn tell_close(action: &Action, told: &mut Transcript) {
    match closes(told.alloc, action) {
        Ok(Some(application)) => told.tell("closes", &application),
        Ok(None) => {}
        Err(_error) => told.lacks_memory(),
    }
}

/// That bytes are read as a version's checkpoint, or the code by which they are refused.
fn code_of(bytes: &[u8], version: u64, told: &mut Transcript) -> &'static str {
    match read_checkpoint(told.alloc, bytes, version) {
        Ok(_snapshot) => "read",
        Err(CheckpointError::Memory) => {
            told.lacks_memory();
            ""
        }
        Err(CheckpointError::Fault(CheckpointFault::NoCheckpointMetadata)) => "K1",
        Err(CheckpointError::Fault(CheckpointFault::VersionMismatch { .. })) => "K2",
        Err(CheckpointError::Fault(CheckpointFault::HasSidecar)) => "K3",
        Err(CheckpointError::Fault(CheckpointFault::BadLine { .. })) => "K4",
    }
}
