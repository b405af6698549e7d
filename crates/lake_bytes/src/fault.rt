//! Why bytes could not be read as a number.

ghost use Rattle.std.specs.Prelude.{Some};
ghost use Rattle.lake_bytes.specs.Texts.{fault_text};

use std::fmt;
use std::fmt::{Display, Formatter};
use thiserror::Error;

/// What is wrong with the bytes in front of a cursor. Its texts are written by hand, so that contracts
/// know them.
#[derive(Clone, Copy, Debug, PartialEq, Eq, Error)]
pub enum ByteFault {
    /// The bytes end within the value.
    Short,
    /// Ten bytes of a varint have the high bit set, so it goes on.
    VarintTooLong,
    /// The number is out of its type's range.
    OutOfRange,
    /// A run of a hybrid has no values.
    BadRun,
}

impl Display for ByteFault {
    ghost output = { λ fault. Some (fault_text fault) };

    fn fmt<W: fmt::Write>(&self, f: &mut Formatter<W>) -> fmt::Result {
        f.write_str(match self {
            ByteFault::Short => "B1 Short",
            ByteFault::VarintTooLong => "B2 VarintTooLong",
            ByteFault::OutOfRange => "B3 OutOfRange",
            ByteFault::BadRun => "B4 BadRun",
        })
    }
}
