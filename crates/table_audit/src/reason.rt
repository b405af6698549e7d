//! What makes a store unsound.

ghost use Rattle.std.specs.Prelude.{IfOk, Some};
ghost use Rattle.table_audit.specs.Reasons.{IsId};
ghost use Rattle.table_audit.specs.ReasonTexts.{application_id_text, reason_text};

use delta_actions::ActionFault;
use parquet_footer::FileFault;
use serde_json::Value;
use std::alloc::{AllocError, Global};
use std::fmt;
use std::fmt::{Display, Formatter};
use thiserror::Error;

/// The first unsound version of a store, and why it is unsound.
#[derive(Debug, Drop)]
pub struct Unsound {
    /// The least version whose commit, file or checkpoint breaks the store.
    pub version: u64,
    /// What breaks it.
    pub reason: Reason,
}

/// The id of an application, as a JSON string, so on one line, whatever it contains.
#[derive(Debug, Drop)]
pub struct ApplicationId {
    text: String,
}

impl ApplicationId {
    /// The id that a text is.
    pub(crate) fn new(alloc: Global, id: &str) -> Result<ApplicationId, AllocError>
        ensures { IfOk result (λ application. IsId application id.now) }
    {
        let text = Value::try_from_str(alloc, id)?.to_string(alloc)?;
        Ok(ApplicationId { text })
    }
}

impl Display for ApplicationId {
    ghost output = { λ application. Some (application_id_text application) };

    fn fmt<W: fmt::Write>(&self, f: &mut Formatter<W>) -> fmt::Result {
        f.write_str(&self.text)
    }
}

/// What makes a version unsound. Its texts are written by hand, so that contracts know them.
#[derive(Debug, Drop, Error)]
pub enum Reason {
    /// A line of the commit can't be read.
    BadCommit {
        version: u64,
        fault: ActionFault,
    },
    /// The first commit is no creation of a table.
    NoCreation,
    /// The commit's actions are neither a group of batches nor the close of a stream.
    NoEntry {
        version: u64,
    },
    /// A group has two batches of one application.
    Twice {
        version: u64,
        application: ApplicationId,
    },
    /// A batch's number isn't above its application's last one.
    NotAbove {
        number: u64,
        application: ApplicationId,
        last: u64,
    },
    /// A batch stands behind the close of its stream.
    Closed {
        number: u64,
        application: ApplicationId,
    },
    /// The file that is added isn't the one of its batch, or brings no new rows.
    OtherFile {
        number: u64,
        application: ApplicationId,
    },
    /// A batch's file doesn't stand.
    NoFile {
        name: String,
    },
    /// A batch's file isn't one of the table's.
    BadFile {
        name: String,
        fault: FileFault,
    },
    /// A commit stands behind a version that has none.
    CommitBehindGap {
        version: u64,
    },
    /// A checkpoint is of a version without a commit.
    CheckpointBehindGap {
        name: String,
    },
    /// A line of a checkpoint can't be read.
    BadCheckpoint {
        name: String,
        fault: ActionFault,
    },
    /// A checkpoint isn't that of its version.
    OtherCheckpoint {
        name: String,
    },
}

impl Display for Reason {
    ghost output = { λ reason. Some (reason_text reason) };

    fn fmt<W: fmt::Write>(&self, f: &mut Formatter<W>) -> fmt::Result {
        match self {
            Reason::BadCommit { version, fault } => write!(f, "commit {version}: {fault}"),
            Reason::NoCreation => f.write_str("commit 0: no creation of a table"),
            Reason::NoEntry { version } => write!(f, "commit {version}: no group and no close"),
            Reason::Twice {
                version,
                application,
            } => write!(f, "commit {version}: {application} stands twice"),
            Reason::NotAbove {
                number,
                application,
                last,
            } => write!(f, "number {number} of {application} is not above {last}"),
            Reason::Closed {
                number,
                application,
            } => write!(f, "number {number} of {application} is behind its close"),
            Reason::OtherFile {
                number,
                application,
            } => write!(f, "number {number} of {application} adds another file"),
            Reason::NoFile { name } => write!(f, "file {name}: missing"),
            Reason::BadFile { name, fault } => write!(f, "file {name}: {fault}"),
            Reason::CommitBehindGap { version } => write!(f, "commit {version} behind a gap"),
            Reason::CheckpointBehindGap { name } => write!(f, "checkpoint {name}: no commit"),
            Reason::BadCheckpoint { name, fault } => write!(f, "checkpoint {name}: {fault}"),
            Reason::OtherCheckpoint { name } => {
                write!(f, "checkpoint {name}: not that of its version")
            }
        }
    }
}
