//! Why bytes aren't read as a checkpoint.

ghost use Rattle.std.specs.Prelude.{◌≡◌, Some};
ghost use Rattle.delta_checkpoint.specs.Faults.{error_text, fault_text};
ghost use Rattle.delta_checkpoint.specs.declared.fault.CheckpointError.TheVariants.{Fault, Memory};

use delta_actions::ActionFault;
use std::alloc::{AllocError, AllocFailed};
use std::fmt;
use std::fmt::{Display, Formatter};
use thiserror::Error;

/// Why bytes aren't the checkpoint of a version. The order of the tests is K4, K1, K2, K3. The texts are written by
/// hand, so that contracts know them.
#[derive(Clone, Copy, Debug, PartialEq, Eq, Error)]
pub enum CheckpointFault {
    /// There is no `checkpointMetadata` (Delta PROTOCOL.md, "Checkpoint Metadata").
    NoCheckpointMetadata,
    /// The version of a `checkpointMetadata` isn't the one asked for.
    VersionMismatch { found: u64 },
    /// A line refers to a sidecar (Delta PROTOCOL.md, "Sidecar File Information"), which isn't read.
    HasSidecar,
    /// A line can't be read.
    BadLine { fault: ActionFault },
}

impl Display for CheckpointFault {
    ghost output = { λ fault. Some (fault_text fault) };

    fn fmt<W: fmt::Write>(&self, f: &mut Formatter<W>) -> fmt::Result {
        match self {
            CheckpointFault::NoCheckpointMetadata => f.write_str("K1 NoCheckpointMetadata"),
            CheckpointFault::VersionMismatch { found } => write!(f, "K2 VersionMismatch {found}"),
            CheckpointFault::HasSidecar => f.write_str("K3 HasSidecar"),
            CheckpointFault::BadLine { fault } => write!(f, "K4 BadLine {fault}"),
        }
    }
}

/// Why bytes aren't read as a checkpoint, or that memory ran out.
#[derive(Clone, Copy, Debug, PartialEq, Eq, Error)]
pub enum CheckpointError {
    /// A growth of memory was refused.
    Memory,
    /// What is wrong with the bytes.
    Fault(CheckpointFault),
}

impl Display for CheckpointError {
    ghost output = { λ error. Some (error_text error) };

    fn fmt<W: fmt::Write>(&self, f: &mut Formatter<W>) -> fmt::Result {
        match self {
            CheckpointError::Memory => f.write_str("out of memory"),
            CheckpointError::Fault(fault) => write!(f, "{fault}"),
        }
    }
}

impl From<CheckpointFault> for CheckpointError {
    ghost from_gives = { λ fault e. e ≡ Fault fault };

    fn from(fault: CheckpointFault) -> CheckpointError {
        CheckpointError::Fault(fault)
    }
}

impl From<AllocError> for CheckpointError {
    ghost from_gives = { λ _ e. e ≡ Memory };

    fn from(_e: AllocError) -> CheckpointError {
        CheckpointError::Memory
    }
}

impl<T: Drop> From<AllocFailed<T>> for CheckpointError {
    ghost from_gives = { λ _ e. e ≡ Memory };

    fn from(_e: AllocFailed<T>) -> CheckpointError {
        CheckpointError::Memory
    }
}
