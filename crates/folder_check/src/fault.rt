//! Why a folder isn't judged.
ghost use Rattle.std.specs.Prelude.{◌≡◌, Some};
ghost use Rattle.folder_check.specs.Faults.{check_text};
ghost use Rattle.folder_check.specs.declared.fault.CheckFault.TheVariants.{Folder};
ghost use Rattle.table_folder.specs.declared.fault.LoadFault.TheVariants as loads;

use std::alloc::{AllocError, AllocFailed};
use std::fmt;
use std::fmt::{Display, Formatter};
use table_folder::LoadFault;
use thiserror::Error;

/// Why a folder isn't judged. Its texts are written by hand, so that contracts know them.
#[derive(Debug, Drop, Error)]
pub enum CheckFault {
    /// The folder can't be listed, or a file of it can't be read; or memory ran out.
    Folder(LoadFault),
    /// A data file is over 64 MiB, or claims over 4,194,304 rows, or a text or bytes of it are over 1 MiB: whether it
    /// is one of the table's isn't known.
    TooLarge { name: String },
}

impl Display for CheckFault {
    ghost output = { λ fault. Some (check_text fault) };

    fn fmt<W: fmt::Write>(&self, f: &mut Formatter<W>) -> fmt::Result {
        match self {
            CheckFault::Folder(fault) => write!(f, "{fault}"),
            CheckFault::TooLarge { name } => write!(f, "P9 TooLarge {name}"),
        }
    }
}

impl From<AllocError> for CheckFault {
    ghost from_gives = { λ _ fault. fault ≡ Folder loads.Memory };

    fn from(_error: AllocError) -> CheckFault {
        CheckFault::Folder(LoadFault::Memory)
    }
}

impl<T: Drop> From<AllocFailed<T>> for CheckFault {
    ghost from_gives = { λ _ fault. fault ≡ Folder loads.Memory };

    fn from(_error: AllocFailed<T>) -> CheckFault {
        CheckFault::Folder(LoadFault::Memory)
    }
}
