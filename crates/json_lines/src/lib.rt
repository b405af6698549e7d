//! JSON objects, one a line.
#![tactic(auto)]

ghost use Rattle.std.specs.Prelude.{◌≡◌, IfOk, IfErr, IfSome, map, Some, is_some, option_map};
ghost use Rattle.serde_json.specs.Read.{read};
ghost use Rattle.json_text.specs.Rows.{text_data};
ghost use Rattle.json_lines.specs.Rows.{without_last_newline, input_lines, json_object_in_line, only_object, NamesFirstBadLine};

mod flaw;

pub use flaw::{Flaw, flaw_of};
use json::Scratch;
use json_text::{TextError, value_in};
use std::alloc::{AllocError, AllocFailed, Global};
use std::str;
use thiserror::Error;

/// Why lines are no objects.
#[derive(Clone, Copy, Debug, PartialEq, Eq, Error)]
pub enum LineFault {
    /// The line of this number, counted from 1, is no JSON object, and why.
    #[error("bad line {0}")]
    Bad(u64, Flaw),
    /// A growth was refused.
    #[error("out of memory")]
    Memory,
}

impl From<AllocError> for LineFault {
    ghost from_gives = { λ _ fault. fault ≡ Memory };

    ghost use Rattle.json_lines.specs.declared.LineFault.TheVariants.{Memory};

    fn from(_error: AllocError) -> LineFault {
        LineFault::Memory
    }
}

impl<T: Drop> From<AllocFailed<T>> for LineFault {
    ghost from_gives = { λ _ fault. fault ≡ Memory };

    ghost use Rattle.json_lines.specs.declared.LineFault.TheVariants.{Memory};

    fn from(_error: AllocFailed<T>) -> LineFault {
        LineFault::Memory
    }
}

/// The texts of the objects of a text, one a line: a line ends at a newline, and what stands behind the last newline is
/// a line too, unless it is empty. An empty line is no object. The fault names the first line that is none, at which it
/// looks once more for what is wrong. Takes time linear in the text.
pub fn objects_in<'a>(alloc: Global, text: &'a [u8]) -> Result<Vec<&'a str>, LineFault>
    // They are the text's lines, and each is that of an object.
    ensures texts { IfOk result (λ objects. map (λ object. object.now) objects.items ≡ input_lines text.now) }
    ensures objects { IfOk result (λ objects. map json_object_in_line (input_lines text.now) ≡ map (λ object. Some (text_data object.now)) objects.items) }
    ensures fault { IfErr result (NamesFirstBadLine text.now) }
{
    let mut objects = Vec::new(alloc);
    if text.is_empty() {
        return Ok(objects);
    }
    let mut scratch = Scratch::new(alloc);
    let mut number = 0u64;
    for line in without_last_newline(text).split(|byte| *byte == b'\n') {
        number += 1;
        let Some(object) = object_in(alloc, line, &mut scratch)? else {
            return Err(LineFault::Bad(number, flaw_of(alloc, line)));
        };
        objects.push(object)?;
    }
    Ok(objects)
}

/// A text without a newline at its end.
fn without_last_newline(text: &[u8]) -> &[u8]
    ensures { result.now ≡ without_last_newline text.now }
{
    text.strip_suffix(b"\n").unwrap_or(text)
}

/// The text of the object that a line is.
#[tactic(auto, unfolding(crate::specs::Rows::json_object_in_line))]
fn object_in<'a>(
    alloc: Global,
    line: &'a [u8],
    scratch: &mut Scratch,
) -> Result<Option<&'a str>, AllocError>
    ensures line { IfOk result (λ found. IfSome found (λ text. text.now ≡ line.now)) }
    ensures object { IfOk result (λ found. option_map (λ text. text_data text.now) found ≡ json_object_in_line line.now) }
{
    let Ok(text) = str::from_utf8(line) else {
        return Ok(None);
    };
    if is_object(alloc, text, scratch)? {
        Ok(Some(text))
    } else {
        Ok(None)
    }
}

/// Whether a text is a JSON object.
fn is_object(alloc: Global, text: &str, scratch: &mut Scratch) -> Result<bool, AllocError>
    ensures { IfOk result (λ is. is ≡ is_some (only_object (read text.now))) }
{
    match value_in(alloc, text, scratch) {
        Ok(value) => Ok(value.is_object()),
        Err(TextError::Malformed) => Ok(false),
        Err(TextError::Memory) => Err(AllocError),
    }
}
