//! Why a JSON value is no row.

ghost use Rattle.std.specs.Prelude.{◌≡◌, IfOk, Some, None};
ghost use Rattle.row_core.specs.FaultTexts.{error_text, fault_text};
ghost use Rattle.row_core.specs.Fault.{fault_of, inside, missing, wrong_kind, out_of_range, unsupported};
ghost use Rattle.row_core.specs.ToldOutside.{IsToldOutside};
ghost use Rattle.row_core.specs.declared.fault.RowError.TheVariants.{Memory, Fault};

use schema_tree::ColumnPath;
use std::alloc::{AllocError, AllocFailed, Global};
use std::fmt;
use std::fmt::{Display, Formatter};
use thiserror::Error;

/// What is wrong with a JSON value that is to be a row: the first fault, where fields are looked at in the order of
/// the schema, depth first, and behind a struct's fields the names that none of them has. The texts are written by
/// hand, so that contracts know them.
#[derive(Debug, Drop, Error)]
pub enum RowFault {
    /// A null, or no value, where there may be none.
    Missing { path: ColumnPath },
    /// A value of another kind than the type's.
    WrongKind { path: ColumnPath },
    /// A whole number that the type doesn't have, or a text or bytes of more than 1 MiB.
    OutOfRange { path: ColumnPath },
    /// The table has a column of which there are no rows.
    Unsupported { path: ColumnPath },
    /// A name that no field of the struct has; of several the first by bytes.
    Unknown { name: String },
}

impl Display for RowFault {
    ghost output = { λ fault. Some (fault_text fault) };

    fn fmt<W: fmt::Write>(&self, f: &mut Formatter<W>) -> fmt::Result {
        match self {
            RowFault::Missing { path } => write!(f, "V1 Missing {path}"),
            RowFault::WrongKind { path } => write!(f, "V2 WrongKind {path}"),
            RowFault::OutOfRange { path } => write!(f, "V3 OutOfRange {path}"),
            RowFault::Unsupported { path } => write!(f, "V4 Unsupported {path}"),
            RowFault::Unknown { name } => write!(f, "V5 Unknown {name}"),
        }
    }
}

impl RowFault {
    /// A null stands here, where there may be none.
    pub(crate) fn missing() -> RowFault
        ensures { fault_of result ≡ missing None }
    {
        RowFault::Missing {
            path: ColumnPath::root(),
        }
    }

    /// The value here is of another kind.
    pub(crate) fn wrong_kind() -> RowFault
        ensures { fault_of result ≡ wrong_kind None }
    {
        RowFault::WrongKind {
            path: ColumnPath::root(),
        }
    }

    /// The value here is out of range.
    pub(crate) fn out_of_range() -> RowFault
        ensures { fault_of result ≡ out_of_range None }
    {
        RowFault::OutOfRange {
            path: ColumnPath::root(),
        }
    }

    /// There are no values of the type here.
    pub(crate) fn unsupported() -> RowFault
        ensures { fault_of result ≡ unsupported None }
    {
        RowFault::Unsupported {
            path: ColumnPath::root(),
        }
    }
}

/// Why a row could not be read. Its texts are written by hand, so that contracts know them.
#[derive(Debug, Drop, Error)]
pub enum RowError {
    /// A growth of memory was refused.
    Memory,
    /// What is wrong with the value.
    Fault(RowFault),
}

impl Display for RowError {
    ghost output = { λ error. Some (error_text error) };

    fn fmt<W: fmt::Write>(&self, f: &mut Formatter<W>) -> fmt::Result {
        match self {
            RowError::Memory => f.write_str("out of memory"),
            RowError::Fault(fault) => write!(f, "{fault}"),
        }
    }
}

impl RowError {
    /// The error of what stands inside the field of this name.
    pub(crate) fn inside(self, alloc: Global, name: &str) -> RowError
        ensures { IsToldOutside name.now self result }
    {
        let RowError::Fault(fault) = self else {
            return RowError::Memory;
        };
        match fault_inside(alloc, fault, name) {
            Ok(fault) => RowError::Fault(fault),
            Err(_) => RowError::Memory,
        }
    }
}

/// The fault of what stands inside the field of this name.
fn fault_inside(alloc: Global, fault: RowFault, name: &str) -> Result<RowFault, AllocError>
    ensures { IfOk result (λ told. fault_of told ≡ inside name.now (fault_of fault)) }
{
    match fault {
        RowFault::Missing { path } => {
            let path = path.inside(alloc, name)?;
            Ok(RowFault::Missing { path })
        }
        RowFault::WrongKind { path } => {
            let path = path.inside(alloc, name)?;
            Ok(RowFault::WrongKind { path })
        }
        RowFault::OutOfRange { path } => {
            let path = path.inside(alloc, name)?;
            Ok(RowFault::OutOfRange { path })
        }
        RowFault::Unsupported { path } => {
            let path = path.inside(alloc, name)?;
            Ok(RowFault::Unsupported { path })
        }
        RowFault::Unknown { name: other } => Ok(RowFault::Unknown { name: other }),
    }
}

impl From<AllocError> for RowError {
    ghost from_gives = { λ _ e. e ≡ Memory };

    fn from(_e: AllocError) -> RowError {
        RowError::Memory
    }
}

impl<T: Drop> From<AllocFailed<T>> for RowError {
    ghost from_gives = { λ _ e. e ≡ Memory };

    fn from(_e: AllocFailed<T>) -> RowError {
        RowError::Memory
    }
}

impl From<RowFault> for RowError {
    ghost from_gives = { λ f e. e ≡ Fault f };

    fn from(fault: RowFault) -> RowError {
        RowError::Fault(fault)
    }
}
