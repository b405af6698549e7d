//! Why bytes could not be read as a tree.

ghost use Rattle.std.specs.Prelude.{◌≡◌, Some};
ghost use Rattle.thrift_values.specs.FaultTexts.{error_text, fault_text};
ghost use Rattle.thrift_values.specs.declared.fault.ThriftFault.TheVariants.{Bytes};
ghost use Rattle.thrift_values.specs.declared.fault.ReadError.TheVariants.{Memory, Fault};

use lake_bytes::ByteFault;
use std::alloc::{AllocError, AllocFailed};
use std::fmt;
use std::fmt::{Display, Formatter};
use thiserror::Error;

/// What is wrong with the bytes: the first fault from the left, or a field that its reader needs and a struct
/// lacks. The texts are written by hand, so that contracts know them.
#[derive(Clone, Copy, Debug, PartialEq, Eq, Error)]
pub enum ThriftFault {
    /// A number can't be read, or a size is above the bytes that are left.
    Bytes(ByteFault),
    /// A type number that isn't read, or a boolean in a list, a set or a map that is neither 0, 1 nor 2.
    BadType,
    /// More than 32 structs, lists and maps stand in one another.
    TooDeep,
    /// More than 262,144 values.
    TooMany,
    /// A struct lacks a field that its reader needs.
    MissingField { id: i16 },
}

impl Display for ThriftFault {
    ghost output = { λ fault. Some (fault_text fault) };

    fn fmt<W: fmt::Write>(&self, f: &mut Formatter<W>) -> fmt::Result {
        match self {
            ThriftFault::Bytes(fault) => write!(f, "{fault}"),
            ThriftFault::BadType => f.write_str("TH1 BadType"),
            ThriftFault::TooDeep => f.write_str("TH2 TooDeep"),
            ThriftFault::TooMany => f.write_str("TH3 TooMany"),
            ThriftFault::MissingField { id } => write!(f, "TH4 MissingField {id}"),
        }
    }
}

impl From<ByteFault> for ThriftFault {
    ghost from_gives = { λ b t. t ≡ Bytes b };

    fn from(fault: ByteFault) -> ThriftFault {
        ThriftFault::Bytes(fault)
    }
}

/// Why a tree could not be read. Its texts are written by hand, so that contracts know them.
#[derive(Debug, Drop, Error)]
pub enum ReadError {
    /// A growth of memory was refused.
    Memory,
    /// What is wrong with the bytes.
    Fault(ThriftFault),
}

impl Display for ReadError {
    ghost output = { λ error. Some (error_text error) };

    fn fmt<W: fmt::Write>(&self, f: &mut Formatter<W>) -> fmt::Result {
        match self {
            ReadError::Memory => f.write_str("out of memory"),
            ReadError::Fault(fault) => write!(f, "{fault}"),
        }
    }
}

impl From<AllocError> for ReadError {
    ghost from_gives = { λ _ e. e ≡ Memory };

    fn from(_e: AllocError) -> ReadError {
        ReadError::Memory
    }
}

impl<T: Drop> From<AllocFailed<T>> for ReadError {
    ghost from_gives = { λ _ e. e ≡ Memory };

    fn from(_e: AllocFailed<T>) -> ReadError {
        ReadError::Memory
    }
}

impl From<ThriftFault> for ReadError {
    ghost from_gives = { λ f e. e ≡ Fault f };

    fn from(fault: ThriftFault) -> ReadError {
        ReadError::Fault(fault)
    }
}

impl From<ByteFault> for ReadError {
    ghost from_gives = { λ b e. e ≡ Fault (Bytes b) };

    fn from(fault: ByteFault) -> ReadError {
        ReadError::Fault(ThriftFault::Bytes(fault))
    }
}
