//! Why a table isn't read or written.

ghost use Rattle.std.specs.Prelude.{◌≡◌, Some};
ghost use Rattle.delta_replay.specs.SupportTexts.{error_text, fault_text};
ghost use Rattle.delta_replay.specs.declared.support.SupportError.TheVariants.{Fault, Memory};

use schema_tree::SchemaFault;
use std::alloc::{AllocError, AllocFailed};
use std::fmt;
use std::fmt::{Display, Formatter};
use thiserror::Error;

/// What a table has or lacks, so that it isn't read or written. The variants stand by their codes; the order of the
/// tests is C1, C2, C5, C3, C4, C6. The texts are written by hand, so that contracts know them.
#[derive(Debug, Drop, Error)]
pub enum SupportFault {
    /// No commit has a `protocol`.
    NoProtocol,
    /// No commit has a `metaData`.
    NoMetadata,
    /// A feature that isn't known (Delta PROTOCOL.md, "Table Features").
    Feature { name: String },
    /// The table has partition columns (Delta PROTOCOL.md, "Partition Value Serialization").
    Partitioned,
    /// A reader's version that is neither 1 nor 3 (Delta PROTOCOL.md, "Protocol Evolution").
    ReaderVersion { n: u64 },
    /// The schema's text can't be read (Delta PROTOCOL.md, "Schema Serialization Format").
    BadSchema { fault: SchemaFault },
}

impl Display for SupportFault {
    ghost output = { λ fault. Some (fault_text fault) };

    fn fmt<W: fmt::Write>(&self, f: &mut Formatter<W>) -> fmt::Result {
        match self {
            SupportFault::NoProtocol => f.write_str("C1 NoProtocol"),
            SupportFault::NoMetadata => f.write_str("C2 NoMetadata"),
            SupportFault::Feature { name } => write!(f, "C3 Feature {name}"),
            SupportFault::Partitioned => f.write_str("C4 Partitioned"),
            SupportFault::ReaderVersion { n } => write!(f, "C5 ReaderVersion {n}"),
            SupportFault::BadSchema { fault } => write!(f, "C6 BadSchema {fault}"),
        }
    }
}

/// Why a table isn't read or written, or that memory ran out.
#[derive(Debug, Drop, Error)]
pub enum SupportError {
    /// A growth of memory was refused.
    Memory,
    /// What the table has or lacks.
    Fault(SupportFault),
}

impl Display for SupportError {
    ghost output = { λ error. Some (error_text error) };

    fn fmt<W: fmt::Write>(&self, f: &mut Formatter<W>) -> fmt::Result {
        match self {
            SupportError::Memory => f.write_str("out of memory"),
            SupportError::Fault(fault) => write!(f, "{fault}"),
        }
    }
}

impl From<SupportFault> for SupportError {
    ghost from_gives = { λ fault e. e ≡ Fault fault };

    fn from(fault: SupportFault) -> SupportError {
        SupportError::Fault(fault)
    }
}

impl From<AllocError> for SupportError {
    ghost from_gives = { λ _ e. e ≡ Memory };

    fn from(_e: AllocError) -> SupportError {
        SupportError::Memory
    }
}

impl<T: Drop> From<AllocFailed<T>> for SupportError {
    ghost from_gives = { λ _ e. e ≡ Memory };

    fn from(_e: AllocFailed<T>) -> SupportError {
        SupportError::Memory
    }
}
