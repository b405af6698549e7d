//! Why a table isn't created.
ghost use Rattle.std.specs.Prelude.{Some};
ghost use Rattle.commit_core.specs.Texts.{create_fault_text};

use schema_tree::{ReadError, SchemaFault};
use std::alloc::AllocError;
use std::fmt;
use std::fmt::{Display, Formatter};
use thiserror::Error;

/// Why a table isn't created. Its texts are written by hand, so that contracts know them.
#[derive(Debug, Drop, Error)]
pub enum CreateFault {
    /// Version 0 stands.
    TableExists,
    /// What is wrong with the schema's text.
    BadSchema(SchemaFault),
    /// The table's id is no UUID.
    BadId,
    /// A growth was refused. Nothing was put.
    Memory,
    /// The put was lost: it may have taken effect, or may do so later, or never.
    Lost,
    /// The commit passes 64 MiB.
    TooLarge,
}

impl Display for CreateFault {
    ghost output = { λ fault. Some (create_fault_text fault) };

    fn fmt<W: fmt::Write>(&self, f: &mut Formatter<W>) -> fmt::Result {
        match self {
            CreateFault::TableExists => f.write_str("E1 TableExists"),
            CreateFault::BadSchema(fault) => write!(f, "E2 BadSchema {fault}"),
            CreateFault::BadId => f.write_str("E3 BadId"),
            CreateFault::Memory => f.write_str("E4 Memory"),
            CreateFault::Lost => f.write_str("E5 Lost"),
            CreateFault::TooLarge => f.write_str("E6 TooLarge"),
        }
    }
}

impl From<ReadError> for CreateFault {
    ghost from_gives = { told_of_reading };

    ghost use Rattle.commit_core.specs.Creating.{told_of_reading};

    fn from(error: ReadError) -> CreateFault {
        match error {
            ReadError::Memory => CreateFault::Memory,
            ReadError::Fault(fault) => CreateFault::BadSchema(fault),
        }
    }
}

impl From<AllocError> for CreateFault {
    ghost from_gives = { λ _ e. e ≡ Memory };

    ghost use Rattle.std.specs.Prelude.{◌≡◌};
    ghost use Rattle.commit_core.specs.declared.fault.CreateFault.TheVariants.{Memory};

    fn from(_error: AllocError) -> CreateFault {
        CreateFault::Memory
    }
}
