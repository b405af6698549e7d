//! Why columns are not those of any rows.

ghost use Rattle.std.specs.Prelude.{◌≡◌, Some};
ghost use Rattle.row_assembly.specs.Faults.{error_text, says, says_mismatch, SaysOutside};
ghost use Rattle.row_assembly.specs.declared.fault.ShredError.TheVariants.{Memory};

use schema_tree::ColumnPath;
use std::alloc::{AllocError, AllocFailed, Global};
use std::fmt;
use std::fmt::{Display, Formatter};
use thiserror::Error;

/// Why rows could not be made of columns. Its texts are written by hand, so that contracts know them.
#[derive(Debug, Drop, Error)]
pub enum ShredError {
    /// A growth of memory was refused.
    Memory,
    /// Another number of columns than the shape has leaves, columns of different numbers of levels, or a number of
    /// values that isn't the number of levels at the column's highest.
    UnevenColumns,
    /// The first row that can't be made: the leaf of this path, the first one depth first, has a level above its
    /// highest, disagrees with a leaf before it whether a struct above both is null, or has a value that is a null
    /// or a struct.
    LevelMismatch { path: ColumnPath },
}

impl Display for ShredError {
    ghost output = { λ error. Some (error_text error) };

    fn fmt<W: fmt::Write>(&self, f: &mut Formatter<W>) -> fmt::Result {
        match self {
            ShredError::Memory => f.write_str("out of memory"),
            ShredError::UnevenColumns => f.write_str("H1 UnevenColumns"),
            ShredError::LevelMismatch { path } => write!(f, "H2 LevelMismatch {path}"),
        }
    }
}

impl ShredError {
    /// The error of what stands inside the field of this name.
    pub(crate) fn inside(self, alloc: Global, name: &str) -> ShredError
        ensures { SaysOutside name.now (says self) (says result) }
    {
        match self {
            ShredError::LevelMismatch { path } => match path.inside(alloc, name) {
                Ok(path) => ShredError::LevelMismatch { path },
                Err(_) => ShredError::Memory,
            },
            error => error,
        }
    }
}

/// The cell of a leaf disagrees with those before it, or with the leaf.
#[derive(Drop)]
pub(crate) struct CellMismatch;

impl From<CellMismatch> for ShredError {
    ghost from_gives = { λ mismatch e. says e ≡ says_mismatch mismatch };

    fn from(_mismatch: CellMismatch) -> ShredError {
        ShredError::LevelMismatch {
            path: ColumnPath::root(),
        }
    }
}

impl From<AllocError> for ShredError {
    ghost from_gives = { λ _ e. e ≡ Memory };

    fn from(_e: AllocError) -> ShredError {
        ShredError::Memory
    }
}

impl<T: Drop> From<AllocFailed<T>> for ShredError {
    ghost from_gives = { λ _ e. e ≡ Memory };

    fn from(_e: AllocFailed<T>) -> ShredError {
        ShredError::Memory
    }
}
