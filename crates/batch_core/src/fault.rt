//! Why a sink refuses to append a batch, or to close a stream.
ghost use Rattle.std.specs.Prelude.{Some};
ghost use Rattle.batch_core.specs.Refusals.{sink_refusal_text, sink_refusal_view};

use commit_core::CommitFault;
use delta_replay::{SupportError, SupportFault};
use row_core::RowFault;
use std::alloc::{AllocError, AllocFailed};
use std::fmt;
use std::fmt::{Display, Formatter};
use table_log::LogFault;
use thiserror::Error;

/// Why a sink refuses to append a batch of rows, or to close a stream. Its texts are written by hand, so that contracts
/// know them.
#[derive(Debug, Error)]
pub enum SinkFault {
    /// The application's id has no bytes, or over 64.
    BadApp,
    /// The number passes 999,999,999,999, there are more than 65,536 rows, or no commit has the version that comes
    /// next.
    TooLarge,
    /// The file passes 64 MiB.
    FileTooLarge,
    /// The commit of that version is missing or can't be read.
    BadLog { version: u64 },
    /// The table isn't written, for what it has or lacks.
    ReadOnly { fault: SupportFault },
    /// The first row that is wrong, by its index from 0. Of a column whose type has no rows the index is 0.
    BadRow { index: u64, fault: RowFault },
    /// The number is below the application's last one, which is this.
    Stale { last: u64 },
    /// The number is new, and the application's stream is closed.
    StreamClosed,
    /// Under the file's name stand other rows, a file that can't be read, or none.
    Differs { name: String },
    /// The commit of that version, which was put meanwhile, changed the table's schema.
    SchemaChanged { version: u64 },
    /// As many versions as may be tried were taken meanwhile, the last of them this one.
    Contended { newest: u64 },
    /// A call of the store was lost: the put of the commit of that version, which may have taken effect, or may do so
    /// later, or never; or another call.
    Lost { version: Option<u64> },
    /// A growth was refused, and no put is known to have created the commit.
    Memory,
}

// One call where it is dropped, in place of all that it may hold: functions that hold one are much shorter to prove.
impl Drop for SinkFault {
    fn drop(self) {
        match self {
            SinkFault::BadApp => {}
            SinkFault::TooLarge => {}
            SinkFault::FileTooLarge => {}
            SinkFault::BadLog { version: _ } => {}
            SinkFault::ReadOnly { fault: _ } => {}
            SinkFault::BadRow { index: _, fault: _ } => {}
            SinkFault::Stale { last: _ } => {}
            SinkFault::StreamClosed => {}
            SinkFault::Differs { name: _ } => {}
            SinkFault::SchemaChanged { version: _ } => {}
            SinkFault::Contended { newest: _ } => {}
            SinkFault::Lost { version: _ } => {}
            SinkFault::Memory => {}
        }
    }
}

impl Display for SinkFault {
    ghost output = { λ fault. Some (sink_refusal_text (sink_refusal_view fault)) };

    fn fmt<W: fmt::Write>(&self, f: &mut Formatter<W>) -> fmt::Result {
        match self {
            SinkFault::BadApp => f.write_str("S11 BadApp"),
            SinkFault::TooLarge | SinkFault::FileTooLarge => f.write_str("S8 TooLarge"),
            SinkFault::BadLog { version } => write!(f, "S9 BadLog {version}"),
            SinkFault::ReadOnly { fault } => match fault {
                SupportFault::NoProtocol => f.write_str("S10 ReadOnly NoProtocol"),
                SupportFault::NoMetadata => f.write_str("S10 ReadOnly NoMetadata"),
                SupportFault::Feature { name } => write!(f, "S10 ReadOnly {name}"),
                SupportFault::Partitioned => f.write_str("S10 ReadOnly Partitioned"),
                SupportFault::ReaderVersion { n: _ } => f.write_str("S10 ReadOnly ReaderVersion"),
                SupportFault::BadSchema { fault: _ } => f.write_str("S10 ReadOnly BadSchema"),
            },
            SinkFault::BadRow { index, fault } => write!(f, "S7 BadRow {index} {fault}"),
            SinkFault::Stale { last } => write!(f, "S1 Stale {last}"),
            SinkFault::StreamClosed => f.write_str("S2 StreamClosed"),
            SinkFault::Differs { name } => write!(f, "S3 Differs {name}"),
            SinkFault::SchemaChanged { version } => write!(f, "S12 SchemaChanged {version}"),
            SinkFault::Contended { newest } => write!(f, "S4 Contended {newest}"),
            SinkFault::Lost {
                version: Some(version),
            } => write!(f, "S5 Lost {version}"),
            SinkFault::Lost { version: None } => f.write_str("S5 Lost -"),
            SinkFault::Memory => f.write_str("S6 Memory"),
        }
    }
}

impl From<AllocError> for SinkFault {
    ghost from_gives = { λ _ e. e ≡ Memory };

    ghost use Rattle.std.specs.Prelude.{◌≡◌};
    ghost use Rattle.batch_core.specs.declared.fault.SinkFault.TheVariants.{Memory};

    fn from(_error: AllocError) -> SinkFault {
        SinkFault::Memory
    }
}

impl<T: Drop> From<AllocFailed<T>> for SinkFault {
    ghost from_gives = { λ _ e. e ≡ Memory };

    ghost use Rattle.std.specs.Prelude.{◌≡◌};
    ghost use Rattle.batch_core.specs.declared.fault.SinkFault.TheVariants.{Memory};

    fn from(_error: AllocFailed<T>) -> SinkFault {
        SinkFault::Memory
    }
}

impl From<LogFault> for SinkFault {
    ghost from_gives = { λ fault e. IsSinkLogFault fault e };

    ghost use Rattle.batch_core.specs.Refusals.{IsSinkLogFault};

    fn from(fault: LogFault) -> SinkFault {
        match fault {
            LogFault::BadLog { version } => SinkFault::BadLog { version },
            LogFault::Lost => SinkFault::Lost { version: None },
            LogFault::Memory => SinkFault::Memory,
        }
    }
}

impl From<SupportError> for SinkFault {
    ghost from_gives = { λ error e. IsSinkSupportFault error e };

    ghost use Rattle.batch_core.specs.Refusals.{IsSinkSupportFault};

    fn from(error: SupportError) -> SinkFault {
        match error {
            SupportError::Memory => SinkFault::Memory,
            SupportError::Fault(fault) => SinkFault::ReadOnly { fault },
        }
    }
}

impl From<CommitFault> for SinkFault {
    ghost from_gives = { λ fault e. IsRaceFault fault e };

    ghost use Rattle.batch_core.specs.Refusals.{IsRaceFault};

    fn from(fault: CommitFault) -> SinkFault {
        match fault {
            CommitFault::BadLog { version } => SinkFault::BadLog { version },
            CommitFault::PastLimit => SinkFault::TooLarge,
            CommitFault::Lost { version } => SinkFault::Lost { version },
            CommitFault::Memory => SinkFault::Memory,
        }
    }
}
