//! Why a text is not read.
ghost use Rattle.std.specs.Prelude.{◌≡◌};

use json::Invalid;
use std::alloc::{AllocError, AllocFailed};
use thiserror::Error;

/// Why a text is not read.
#[derive(Clone, Copy, Debug, PartialEq, Eq, Error)]
pub enum TextError {
    /// It is no JSON, nests deeper than 127, or has a number that no 64-bit float comes near to.
    #[error("no JSON")]
    Malformed,
    /// A growth was refused.
    #[error("out of memory")]
    Memory,
}

impl From<Invalid> for TextError {
    ghost from_gives = { λ _ error. error ≡ Malformed };

    ghost use Rattle.json_text.specs.declared.error.TextError.TheVariants.{Malformed};

    fn from(_invalid: Invalid) -> TextError {
        TextError::Malformed
    }
}

impl From<AllocError> for TextError {
    ghost from_gives = { λ _ error. error ≡ Memory };

    ghost use Rattle.json_text.specs.declared.error.TextError.TheVariants.{Memory};

    fn from(_error: AllocError) -> TextError {
        TextError::Memory
    }
}

impl<T: Drop> From<AllocFailed<T>> for TextError {
    ghost from_gives = { λ _ error. error ≡ Memory };

    ghost use Rattle.json_text.specs.declared.error.TextError.TheVariants.{Memory};

    fn from(_error: AllocFailed<T>) -> TextError {
        TextError::Memory
    }
}
