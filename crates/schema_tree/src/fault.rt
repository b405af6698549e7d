//! Why a schema's text could not be read.

ghost use Rattle.std.specs.Prelude.{◌≡◌, Some, None};
ghost use Rattle.schema_tree.specs.FaultTexts.{error_text, fault_text};
ghost use Rattle.schema_tree.specs.Fault.{fault_of, bad_type, double_name, no_fields};
ghost use Rattle.schema_tree.specs.Internal.{IsToldOutside};
ghost use Rattle.schema_tree.specs.declared.fault.ReadError.TheVariants.{Memory, Fault};

use crate::paths::ColumnPath;
use std::alloc::{AllocError, AllocFailed, Global};
use std::fmt;
use std::fmt::{Display, Formatter};
use thiserror::Error;

/// What is wrong with a schema's text: the first fault, where types are looked at depth first, and at each its
/// depth, the counts, its kind and its fields in turn. The texts are written by hand, so that contracts know them.
#[derive(Debug, Drop, Error)]
pub enum SchemaFault {
    /// The text is no JSON (RFC 8259).
    BadJson,
    /// No type stands here, or a field of the struct here is none.
    BadType { path: ColumnPath },
    /// An earlier field of the struct has the same name.
    DoubleName { path: ColumnPath },
    /// A type below the 16th level; a top field is at the first.
    TooDeep,
    /// More than 1,024 types, or more than 256 leaves.
    TooMany,
    /// A struct without fields.
    NoFields { path: ColumnPath },
}

impl Display for SchemaFault {
    ghost output = { λ fault. Some (fault_text fault) };

    fn fmt<W: fmt::Write>(&self, f: &mut Formatter<W>) -> fmt::Result {
        match self {
            SchemaFault::BadJson => f.write_str("G1 BadJson"),
            SchemaFault::BadType { path } => write!(f, "G2 BadType {path}"),
            SchemaFault::DoubleName { path } => write!(f, "G3 DoubleName {path}"),
            SchemaFault::TooDeep => f.write_str("G4 TooDeep"),
            SchemaFault::TooMany => f.write_str("G5 TooMany"),
            SchemaFault::NoFields { path } => write!(f, "G6 NoFields {path}"),
        }
    }
}

impl SchemaFault {
    /// No type stands here.
    pub(crate) fn bad_type() -> SchemaFault
        ensures { fault_of result ≡ bad_type None }
    {
        SchemaFault::BadType {
            path: ColumnPath::root(),
        }
    }

    /// The field that begins here has the name of an earlier one.
    pub(crate) fn double_name() -> SchemaFault
        ensures { fault_of result ≡ double_name None }
    {
        SchemaFault::DoubleName {
            path: ColumnPath::root(),
        }
    }

    /// The struct here has no fields.
    pub(crate) fn no_fields() -> SchemaFault
        ensures { fault_of result ≡ no_fields None }
    {
        SchemaFault::NoFields {
            path: ColumnPath::root(),
        }
    }
}

/// Why a schema could not be read. Its texts are written by hand, so that contracts know them.
#[derive(Debug, Drop, Error)]
pub enum ReadError {
    /// A growth of memory was refused.
    Memory,
    /// What is wrong with the text.
    Fault(SchemaFault),
}

impl Display for ReadError {
    ghost output = { λ error. Some (error_text error) };

    fn fmt<W: fmt::Write>(&self, f: &mut Formatter<W>) -> fmt::Result {
        match self {
            ReadError::Memory => f.write_str("out of memory"),
            ReadError::Fault(fault) => write!(f, "{fault}"),
        }
    }
}

impl ReadError {
    /// The error of what stands inside the field of this name.
    pub(crate) fn inside(self, alloc: Global, name: &str) -> ReadError
        ensures { IsToldOutside name.now self result }
    {
        match self {
            ReadError::Memory => ReadError::Memory,
            ReadError::Fault(SchemaFault::BadType { path }) => match path.inside(alloc, name) {
                Ok(path) => ReadError::Fault(SchemaFault::BadType { path }),
                Err(_) => ReadError::Memory,
            },
            ReadError::Fault(SchemaFault::DoubleName { path }) => match path.inside(alloc, name) {
                Ok(path) => ReadError::Fault(SchemaFault::DoubleName { path }),
                Err(_) => ReadError::Memory,
            },
            ReadError::Fault(SchemaFault::NoFields { path }) => match path.inside(alloc, name) {
                Ok(path) => ReadError::Fault(SchemaFault::NoFields { path }),
                Err(_) => ReadError::Memory,
            },
            ReadError::Fault(fault) => ReadError::Fault(fault),
        }
    }
}

impl From<AllocError> for ReadError {
    ghost from_gives = { λ _ e. e ≡ Memory };

    fn from(_e: AllocError) -> ReadError {
        ReadError::Memory
    }
}

impl<T: Drop> From<AllocFailed<T>> for ReadError {
    ghost from_gives = { λ _ e. e ≡ Memory };

    fn from(_e: AllocFailed<T>) -> ReadError {
        ReadError::Memory
    }
}

impl From<SchemaFault> for ReadError {
    ghost from_gives = { λ f e. e ≡ Fault f };

    fn from(fault: SchemaFault) -> ReadError {
        ReadError::Fault(fault)
    }
}
