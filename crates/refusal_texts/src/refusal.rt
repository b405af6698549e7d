//! A refusal: what it means, and whether the same call may be tried again.
ghost use Rattle.std.specs.Prelude.{Some};
ghost use Rattle.refusal_texts.specs.Texts.{again_text, refusal_text};

use std::fmt;
use std::fmt::{Display, Formatter};

/// Whether the same call may be tried again, with the same input.
#[derive(Clone, Copy)]
pub enum Again {
    /// It may, as it is: nothing has to be done before.
    Always,
    /// Something else has to be handed in, or the table isn't one for it.
    Never,
    /// It may once this is so.
    After(&'static str),
}

impl Display for Again {
    ghost output = { λ again. Some (again_text again) };

    fn fmt<W: fmt::Write>(&self, f: &mut Formatter<W>) -> fmt::Result {
        match self {
            Again::Always => f.write_str("yes"),
            Again::Never => f.write_str("no"),
            Again::After(what) => write!(f, "after {what}"),
        }
    }
}

/// A refusal, or a fault that stands within one. It is printed as one line, without a newline, which ends with `; retry: `
/// and `yes`, `no` or `after ..`.
#[derive(Clone, Copy)]
pub struct Refusal {
    /// The code, as `S3`: letters and a number.
    pub code: &'static str,
    /// The name that stands behind the code, as `Differs`.
    pub name: &'static str,
    /// What it means for whoever ran the command. What is said to follow stands behind the name in the reply.
    pub meaning: &'static str,
    /// Whether the same call may be tried again. Of a fault it is whether the same bytes may pass then.
    pub again: Again,
}

impl Display for Refusal {
    ghost output = { λ refusal. Some (refusal_text refusal) };

    fn fmt<W: fmt::Write>(&self, f: &mut Formatter<W>) -> fmt::Result {
        let Refusal {
            code,
            name,
            meaning,
            again,
        } = self;
        write!(f, "{code} {name}: {meaning}; retry: {again}")
    }
}
