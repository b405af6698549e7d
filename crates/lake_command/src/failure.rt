//! Why a job on a folder has no reply.
ghost use Rattle.std.specs.Prelude.{◌≡◌, Some};
ghost use Rattle.lake_command.specs.Failures.{failure_text};

use json_lines::{Flaw, LineFault};
use lake_script::InputError;
use std::fmt;
use std::fmt::{Display, Formatter};
use table_folder::{LoadFault, SaveFault};
use thiserror::Error;

/// Why a job on a folder has no reply. Its texts are written by hand, so that contracts know them.
#[derive(Debug, Error)]
pub enum Failure {
    /// The moment is past 999,999,999,999,999. Nothing was run.
    Misused,
    /// A read of the input failed, or the input passes its bounds. Nothing was run.
    NotRead,
    /// The input's line of this number, counted from 1, is no JSON object, and why. Nothing was run.
    BadLine(u64, Flaw),
    /// The input's lines are objects, and another count of them than the words say: `rows` by the words, `found` in the
    /// input. Nothing was run.
    Miscounted { rows: u64, found: u64 },
    /// No room was left for the rows. Nothing was run.
    Memory,
    /// The table wasn't loaded, or a file that a job came to. Nothing was put, and no row is told.
    Loading(LoadFault),
    /// What the job put wasn't saved whole.
    Saving(SaveFault),
}

// By hand, so that a drop is one call to prove and not all that it holds (docs/GATE.md).
impl Drop for Failure {
    fn drop(self) {
        match self {
            Failure::Misused => {}
            Failure::NotRead => {}
            Failure::BadLine(_, _) => {}
            Failure::Miscounted { rows: _, found: _ } => {}
            Failure::Memory => {}
            Failure::Loading(_) => {}
            Failure::Saving(_) => {}
        }
    }
}

impl Display for Failure {
    ghost output = { λ failure. Some (failure_text failure) };

    fn fmt<W: fmt::Write>(&self, f: &mut Formatter<W>) -> fmt::Result {
        match self {
            Failure::Misused => f.write_str("--at is past 999999999999999"),
            Failure::NotRead => f.write_str("refused F3 NotRead"),
            Failure::BadLine(number, _flaw) => write!(f, "bad line {number}"),
            Failure::Miscounted { rows, found } => write!(
                f,
                "--rows says {rows}, but the count of rows in the input is {found}; nothing was run"
            ),
            Failure::Memory => f.write_str("refused S6 Memory"),
            Failure::Loading(fault) => write!(f, "refused {fault}"),
            Failure::Saving(fault) => write!(f, "refused {fault}"),
        }
    }
}

impl From<InputError> for Failure {
    ghost from_gives = { λ error failure. IsFailureOfInput error failure };

    ghost use Rattle.lake_command.specs.Failures.{IsFailureOfInput};

    fn from(error: InputError) -> Failure {
        match error {
            InputError::Memory => Failure::Memory,
            _ => Failure::NotRead,
        }
    }
}

impl From<LineFault> for Failure {
    ghost from_gives = { λ fault failure. IsFailureOfLine fault failure };

    ghost use Rattle.lake_command.specs.Failures.{IsFailureOfLine};

    fn from(fault: LineFault) -> Failure {
        match fault {
            LineFault::Bad(number, flaw) => Failure::BadLine(number, flaw),
            LineFault::Memory => Failure::Memory,
        }
    }
}

impl From<LoadFault> for Failure {
    ghost from_gives = { λ fault failure. failure ≡ Loading fault };

    ghost use Rattle.lake_command.specs.declared.failure.Failure.TheVariants.{Loading};

    fn from(fault: LoadFault) -> Failure {
        Failure::Loading(fault)
    }
}

impl From<SaveFault> for Failure {
    ghost from_gives = { λ fault failure. failure ≡ Saving fault };

    ghost use Rattle.lake_command.specs.declared.failure.Failure.TheVariants.{Saving};

    fn from(fault: SaveFault) -> Failure {
        Failure::Saving(fault)
    }
}
