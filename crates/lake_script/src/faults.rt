//! The program's own faults, and how every refusal is told.
ghost use Rattle.std.specs.Prelude.{Some, option_map};
ghost use Rattle.commit_core.specs.Texts.{refused};
ghost use Rattle.lake_script.specs.Replies.{fault_text};

use std::fmt;
use std::fmt::{Display, Formatter};
use thiserror::Error;

/// Why the program itself refuses. Its texts are written by hand, so that contracts know them.
#[derive(Clone, Copy, Debug, PartialEq, Eq, Error)]
pub enum Fault {
    /// The line asks for what isn't there yet.
    NotYet,
    /// No object stands under the name, or no put of that number is in flight.
    NoSuchName,
    /// No actor of that name has a session that hasn't ended.
    NoActor,
    /// A read of the input failed, or the input passes its bounds. No line was run.
    NotRead,
    /// A reply could not be written. What was written stands.
    NotWritten,
}

impl Display for Fault {
    ghost output = { λ fault. Some (fault_text fault) };

    fn fmt<W: fmt::Write>(&self, f: &mut Formatter<W>) -> fmt::Result {
        f.write_str(match self {
            Fault::NotYet => "N1 NotYet",
            Fault::NoSuchName => "Q1 NoSuchName",
            Fault::NoActor => "Q2 NoActor",
            Fault::NotRead => "F3 NotRead",
            Fault::NotWritten => "F4 NotWritten",
        })
    }
}

/// A fault of any crate as it is told: `refused`, a space, and the fault's own text.
#[derive(Clone, Copy)]
pub struct RefusalText<D>(pub D);

impl<D: Display> Display for RefusalText<D> {
    ghost output = { λ refusal. option_map refused (D.output refusal.0) };

    fn fmt<W: fmt::Write>(&self, f: &mut Formatter<W>) -> fmt::Result {
        let fault = &self.0;
        write!(f, "refused {fault}")
    }
}
