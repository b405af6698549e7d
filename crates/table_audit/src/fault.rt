//! Why a store isn't judged.

ghost use Rattle.std.specs.Prelude.{◌≡◌, Some};
ghost use Rattle.table_audit.specs.Faults.{audit_text, of_store};
ghost use Rattle.table_audit.specs.declared.fault.AuditError.TheVariants.{Memory};

use std::alloc::{AllocError, AllocFailed};
use std::fmt;
use std::fmt::{Display, Formatter};
use store_core::StoreFault;
use thiserror::Error;

/// Why a store isn't judged. Its texts are written by hand, so that contracts know them.
#[derive(Debug, Drop, Error)]
pub enum AuditError {
    /// A call of the store was lost.
    Lost,
    /// Memory ran out.
    Memory,
    /// A data file that the commit of a version adds is over 64 MiB, or claims over 4,194,304 rows, or a text or bytes
    /// of it are over 1 MiB: whether it is one of the table's isn't known. All below the version is sound.
    TooLarge { version: u64, name: String },
}

impl Display for AuditError {
    ghost output = { λ error. Some (audit_text error) };

    fn fmt<W: fmt::Write>(&self, f: &mut Formatter<W>) -> fmt::Result {
        match self {
            AuditError::Lost => f.write_str("St1 Lost"),
            AuditError::Memory => f.write_str("St2 Memory"),
            AuditError::TooLarge { name, .. } => write!(f, "file {name}: P9 TooLarge"),
        }
    }
}

impl From<StoreFault> for AuditError {
    ghost from_gives = { λ fault e. e ≡ of_store fault };

    fn from(fault: StoreFault) -> AuditError {
        match fault {
            StoreFault::Lost => AuditError::Lost,
            StoreFault::Memory => AuditError::Memory,
        }
    }
}

impl From<AllocError> for AuditError {
    ghost from_gives = { λ _ e. e ≡ Memory };

    fn from(_error: AllocError) -> AuditError {
        AuditError::Memory
    }
}

impl<T: Drop> From<AllocFailed<T>> for AuditError {
    ghost from_gives = { λ _ e. e ≡ Memory };

    fn from(_error: AllocFailed<T>) -> AuditError {
        AuditError::Memory
    }
}
