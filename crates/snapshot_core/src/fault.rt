//! Why no checkpoint is put and no snapshot is told.

ghost use Rattle.std.specs.Prelude.{◌≡◌, Some};
ghost use Rattle.snapshot_core.specs.FaultTexts.{fault_text};
ghost use Rattle.snapshot_core.specs.Faults.{IsSnapshotLogFault, IsSnapshotSupportFault, IsSnapshotUnanswered};
ghost use Rattle.snapshot_core.specs.declared.fault.SnapshotFault.TheVariants as faults;

use delta_replay::{SupportError, SupportFault};
use std::alloc::{AllocError, AllocFailed};
use std::fmt;
use std::fmt::{Display, Formatter};
use store_core::StoreFault;
use table_log::LogFault;
use thiserror::Error;

/// Why no checkpoint is put and no snapshot is told. The order of the tests is K7, K8, K9. Its texts are written by
/// hand, so that contracts know them.
#[derive(Debug, Drop, Error)]
pub enum SnapshotFault {
    /// A call of the store was lost. Where it was the put, it may have taken effect, or may do so later, or never.
    Lost,
    /// A growth was refused. Nothing was put.
    Memory,
    /// The commit of that version is missing or can't be read.
    BadLog { version: u64 },
    /// The table isn't read, or its checkpoint isn't put, for what it has or lacks.
    Unsupported { fault: SupportFault },
    /// The checkpoint passes 64 MiB.
    TooLarge,
}

impl Display for SnapshotFault {
    ghost output = { λ fault. Some (fault_text fault) };

    fn fmt<W: fmt::Write>(&self, f: &mut Formatter<W>) -> fmt::Result {
        match self {
            SnapshotFault::Lost => f.write_str("K5 Lost"),
            SnapshotFault::Memory => f.write_str("K6 Memory"),
            SnapshotFault::BadLog { version } => write!(f, "K7 BadLog {version}"),
            SnapshotFault::Unsupported { fault } => write!(f, "K8 Unsupported {fault}"),
            SnapshotFault::TooLarge => f.write_str("K9 TooLarge"),
        }
    }
}

impl From<AllocError> for SnapshotFault {
    ghost from_gives = { λ _ e. e ≡ faults.Memory };

    fn from(_error: AllocError) -> SnapshotFault {
        SnapshotFault::Memory
    }
}

impl<T: Drop> From<AllocFailed<T>> for SnapshotFault {
    ghost from_gives = { λ _ e. e ≡ faults.Memory };

    fn from(_error: AllocFailed<T>) -> SnapshotFault {
        SnapshotFault::Memory
    }
}

impl From<StoreFault> for SnapshotFault {
    ghost from_gives = { λ fault e. IsSnapshotUnanswered fault e };

    fn from(fault: StoreFault) -> SnapshotFault {
        match fault {
            StoreFault::Lost => SnapshotFault::Lost,
            StoreFault::Memory => SnapshotFault::Memory,
        }
    }
}

impl From<LogFault> for SnapshotFault {
    ghost from_gives = { λ fault e. IsSnapshotLogFault fault e };

    fn from(fault: LogFault) -> SnapshotFault {
        match fault {
            LogFault::BadLog { version } => SnapshotFault::BadLog { version },
            LogFault::Lost => SnapshotFault::Lost,
            LogFault::Memory => SnapshotFault::Memory,
        }
    }
}

impl From<SupportError> for SnapshotFault {
    ghost from_gives = { λ error e. IsSnapshotSupportFault error e };

    fn from(error: SupportError) -> SnapshotFault {
        match error {
            SupportError::Memory => SnapshotFault::Memory,
            SupportError::Fault(fault) => SnapshotFault::Unsupported { fault },
        }
    }
}
