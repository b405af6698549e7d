//! Why a read hands out nothing.
ghost use Rattle.std.specs.Prelude.{Some};
ghost use Rattle.log_rows.specs.TailFaults.{read_refusal_text, read_refusal_view};

use delta_replay::{SupportError, SupportFault};
use parquet_footer::FileFault;
use std::alloc::{AllocError, AllocFailed};
use std::fmt;
use std::fmt::{Display, Formatter};
use store_core::StoreFault;
use thiserror::Error;

/// Why a read hands out nothing. The offset stands. That its text is none, and that a call of the store was lost, only
/// the sessions above meet. Its texts are written by hand, so that contracts know them.
#[derive(Debug, Error)]
pub enum TailFault {
    /// The offset's text is no offset.
    BadOffsetText,
    /// The table isn't read, for what it has or lacks.
    Unsupported {
        fault: SupportFault,
    },
    /// The offset is behind the version that comes next, which is this.
    BeyondLog {
        next: u64,
    },
    /// The offset is in front of a version that is gone; from this one on all stand.
    VersionGone {
        first: u64,
    },
    /// That version takes rows away.
    RowsRemoved {
        version: u64,
    },
    /// That version changes the schema.
    SchemaChanged {
        version: u64,
    },
    /// The offset is in no file of its version.
    BadPlace {
        version: u64,
    },
    /// A file of the log isn't in the store, by its path as the log has it.
    MissingFile {
        path: String,
    },
    /// A file can't be read: the version, which of its new files it is, and what is wrong.
    BadFile {
        version: u64,
        file: u64,
        fault: FileFault,
    },
    /// The commit of that version can't be read, or isn't there.
    BadLog {
        version: u64,
    },
    /// A call of the store was lost.
    Lost,
    /// A growth was refused.
    Memory,
}

// One call where it is dropped, in place of all that it may hold: functions that hold one are much shorter to prove.
impl Drop for TailFault {
    fn drop(self) {
        match self {
            TailFault::BadOffsetText => {}
            TailFault::Unsupported { fault: _ } => {}
            TailFault::BeyondLog { next: _ } => {}
            TailFault::VersionGone { first: _ } => {}
            TailFault::RowsRemoved { version: _ } => {}
            TailFault::SchemaChanged { version: _ } => {}
            TailFault::BadPlace { version: _ } => {}
            TailFault::MissingFile { path: _ } => {}
            TailFault::BadFile {
                version: _,
                file: _,
                fault: _,
            } => {}
            TailFault::BadLog { version: _ } => {}
            TailFault::Lost => {}
            TailFault::Memory => {}
        }
    }
}

impl Display for TailFault {
    ghost output = { λ fault. Some (read_refusal_text (read_refusal_view fault)) };

    fn fmt<W: fmt::Write>(&self, f: &mut Formatter<W>) -> fmt::Result {
        match self {
            TailFault::BadOffsetText => f.write_str("O7 BadOffsetText"),
            TailFault::Unsupported { fault } => write!(f, "O11 Unsupported {fault}"),
            TailFault::VersionGone { first } => write!(f, "O1 VersionGone {first}"),
            TailFault::RowsRemoved { version } => write!(f, "O3 RowsRemoved {version}"),
            TailFault::SchemaChanged { version } => write!(f, "O4 SchemaChanged {version}"),
            TailFault::BeyondLog { next } => write!(f, "O2 BeyondLog {next}"),
            TailFault::BadPlace { version } => write!(f, "O10 BadPlace {version}"),
            TailFault::MissingFile { path } => write!(f, "O6 MissingFile {path}"),
            TailFault::BadFile {
                version,
                file,
                fault,
            } => write!(f, "O5 BadFile {version} {file} {fault}"),
            TailFault::BadLog { version } => write!(f, "O12 BadLog {version}"),
            TailFault::Lost => f.write_str("O8 Lost"),
            TailFault::Memory => f.write_str("O9 Memory"),
        }
    }
}

impl From<AllocError> for TailFault {
    ghost from_gives = { λ _ e. e ≡ Memory };

    ghost use Rattle.std.specs.Prelude.{◌≡◌};
    ghost use Rattle.log_rows.specs.declared.tail_fault.TailFault.TheVariants.{Memory};

    fn from(_error: AllocError) -> TailFault {
        TailFault::Memory
    }
}

impl<T: Drop> From<AllocFailed<T>> for TailFault {
    ghost from_gives = { λ _ e. e ≡ Memory };

    ghost use Rattle.std.specs.Prelude.{◌≡◌};
    ghost use Rattle.log_rows.specs.declared.tail_fault.TailFault.TheVariants.{Memory};

    fn from(_error: AllocFailed<T>) -> TailFault {
        TailFault::Memory
    }
}

impl From<StoreFault> for TailFault {
    ghost from_gives = { λ fault e. IsTailUnanswered fault e };

    ghost use Rattle.log_rows.specs.TailFaults.{IsTailUnanswered};

    fn from(fault: StoreFault) -> TailFault {
        match fault {
            StoreFault::Lost => TailFault::Lost,
            StoreFault::Memory => TailFault::Memory,
        }
    }
}

impl From<SupportError> for TailFault {
    ghost from_gives = { λ error e. IsTailSupportFault error e };

    ghost use Rattle.log_rows.specs.TailFaults.{IsTailSupportFault};

    fn from(error: SupportError) -> TailFault {
        match error {
            SupportError::Memory => TailFault::Memory,
            SupportError::Fault(fault) => TailFault::Unsupported { fault },
        }
    }
}
