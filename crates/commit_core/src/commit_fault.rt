//! Why a commit wasn't put.
ghost use Rattle.std.specs.Prelude.{◌≡◌};
ghost use Rattle.commit_core.specs.declared.commit_fault.CommitFault.TheVariants as faults;

use std::alloc::{AllocError, AllocFailed};

/// Why a commit wasn't put, or isn't known to be.
#[derive(Clone, Copy, Debug, PartialEq, Eq)]
pub enum CommitFault {
    /// What stands at that version is missing or can't be read.
    BadLog { version: u64 },
    /// The next version is one that no commit can have.
    PastLimit,
    /// A call was lost: the put of that version, which may have taken effect, or may do so later, or never; or a get,
    /// where there is no version.
    Lost { version: Option<u64> },
    /// A growth was refused, before the put or behind one that isn't known to have created the commit.
    Memory,
}

impl From<AllocError> for CommitFault {
    ghost from_gives = { λ _ e. e ≡ faults.Memory };

    fn from(_error: AllocError) -> CommitFault {
        CommitFault::Memory
    }
}

impl<T: Drop> From<AllocFailed<T>> for CommitFault {
    ghost from_gives = { λ _ e. e ≡ faults.Memory };

    fn from(_error: AllocFailed<T>) -> CommitFault {
        CommitFault::Memory
    }
}
