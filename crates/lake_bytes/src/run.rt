//! Equal values one behind the other, and why a hybrid of them could not be read.

ghost use Rattle.std.specs.Prelude.{◌≡◌, Some};
ghost use Rattle.lake_bytes.specs.Texts.{error_text};
ghost use Rattle.lake_bytes.specs.declared.run.HybridError.TheVariants.{Memory, Fault};

use crate::fault::ByteFault;
use std::alloc::{AllocError, AllocFailed};
use std::fmt;
use std::fmt::{Display, Formatter};
use thiserror::Error;

/// So many equal values, one behind the other.
#[derive(Clone, Copy, Debug, PartialEq, Eq)]
pub struct Run {
    /// The value, of at most 32 bits.
    pub value: u64,
    /// How often it stands there.
    pub count: u64,
}

/// Why a hybrid could not be read. Its texts are written by hand, so that contracts know them.
#[derive(Clone, Copy, Debug, PartialEq, Eq, Error)]
pub enum HybridError {
    /// A growth of memory was refused.
    Memory,
    /// What is wrong with the bytes.
    Fault(ByteFault),
}

impl Display for HybridError {
    ghost output = { λ error. Some (error_text error) };

    fn fmt<W: fmt::Write>(&self, f: &mut Formatter<W>) -> fmt::Result {
        match self {
            HybridError::Memory => f.write_str("out of memory"),
            HybridError::Fault(fault) => write!(f, "{fault}"),
        }
    }
}

impl From<AllocError> for HybridError {
    ghost from_gives = { λ _ e. e ≡ Memory };

    fn from(_e: AllocError) -> HybridError {
        HybridError::Memory
    }
}

impl<T: Drop> From<AllocFailed<T>> for HybridError {
    ghost from_gives = { λ _ e. e ≡ Memory };

    fn from(_e: AllocFailed<T>) -> HybridError {
        HybridError::Memory
    }
}

impl From<ByteFault> for HybridError {
    ghost from_gives = { λ f e. e ≡ Fault f };

    fn from(fault: ByteFault) -> HybridError {
        HybridError::Fault(fault)
    }
}
