//! Why a text is no JSON object, for a message. Nothing is claimed of which flaw is found.
ghost use Rattle.std.specs.Prelude.{Some};
ghost use Rattle.json_lines.specs.FlawTexts.{flaw_text};

use serde_json::Value;
use std::alloc::Global;
use std::fmt::{Display, Formatter};
use std::{fmt, str};
use thiserror::Error;

/// Why a text is no JSON object, as far as a look at it tells. It is printed as what is said of the text. Bytes and
/// lines are counted from 1, but for a text that is told to fail in front of a line's first byte. Its texts are written
/// by hand, so that contracts know them.
#[derive(Clone, Copy, Debug, PartialEq, Eq, Error)]
pub enum Flaw {
    /// It has no bytes.
    Empty,
    /// What begins at this byte is no UTF-8.
    NoText(usize),
    /// It is the front of a text that could be read.
    CutShort,
    /// At this byte the token begins that can't be read, however far behind its start the fault lies; or the reader
    /// stopped right in front of it.
    NoJson(usize),
    /// The same of this byte of a line behind the first one.
    NoJsonBelow { line: usize, byte: usize },
    /// It is another value.
    NoObject,
    /// A growth was refused at the look.
    Unknown,
}

impl Display for Flaw {
    ghost output = { λ flaw. Some (flaw_text flaw) };

    fn fmt<W: fmt::Write>(&self, f: &mut Formatter<W>) -> fmt::Result {
        match self {
            Flaw::Empty => f.write_str("is empty"),
            Flaw::NoText(byte) => write!(f, "isn't UTF-8 at byte {byte}"),
            Flaw::CutShort => f.write_str("ends too early"),
            Flaw::NoJson(byte) => write!(f, "can't be read as JSON near byte {byte}"),
            Flaw::NoJsonBelow { line, byte } => {
                write!(
                    f,
                    "can't be read as JSON near byte {byte} of its line {line}"
                )
            }
            Flaw::NoObject => f.write_str("is JSON, but no object"),
            Flaw::Unknown => f.write_str("is no JSON object"),
        }
    }
}

/// Looks why a text is no JSON object. It is read once more, in time linear in it.
pub fn flaw_of(alloc: Global, text: &[u8]) -> Flaw {
    if text.is_empty() {
        return Flaw::Empty;
    }
    let text = match str::from_utf8(text) {
        Ok(text) => text,
        Err(error) => return Flaw::NoText(error.valid_up_to().saturating_add(1)),
    };
    match Value::from_str(alloc, text) {
        Ok(_value) => Flaw::NoObject,
        Err(error) if error.is_memory() => Flaw::Unknown,
        Err(error) if error.is_eof() => Flaw::CutShort,
        Err(error) if error.line() < 2 => Flaw::NoJson(error.column()),
        Err(error) => Flaw::NoJsonBelow {
            line: error.line(),
            byte: error.column(),
        },
    }
}
