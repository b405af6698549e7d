//! Why a store gave no answer.
ghost use Rattle.std.specs.Prelude.{◌≡◌, Some};
ghost use Rattle.store_core.specs.Texts.{fault_text};
ghost use Rattle.store_core.specs.declared.fault.StoreFault.TheVariants.{Memory};

use std::alloc::{AllocError, AllocFailed};
use std::fmt;
use std::fmt::{Display, Formatter};
use thiserror::Error;

/// What a call of a store may end with in place of an answer. Its texts are written by hand, so that
/// contracts know them.
#[derive(Clone, Copy, Debug, PartialEq, Eq, Error)]
pub enum StoreFault {
    /// The request or its answer was lost. A put may have landed, or land later, or never land.
    Lost,
    /// Memory ran out, and nothing changed.
    Memory,
}

impl Display for StoreFault {
    ghost output = { λ fault. Some (fault_text fault) };

    fn fmt<W: fmt::Write>(&self, f: &mut Formatter<W>) -> fmt::Result {
        f.write_str(match self {
            StoreFault::Lost => "St1 Lost",
            StoreFault::Memory => "St2 Memory",
        })
    }
}

impl From<AllocError> for StoreFault {
    ghost from_gives = { λ _ e. e ≡ Memory };

    fn from(_e: AllocError) -> StoreFault {
        StoreFault::Memory
    }
}

impl<T: Drop> From<AllocFailed<T>> for StoreFault {
    ghost from_gives = { λ _ e. e ≡ Memory };

    fn from(_e: AllocFailed<T>) -> StoreFault {
        StoreFault::Memory
    }
}
