//! What one line of a script is.
ghost use Rattle.std.specs.Prelude.{◌≡◌, IfOk, option_map};
ghost use Rattle.delta_actions.specs.Commit.{is_blank};
ghost use Rattle.script_lines.specs.Lines.{text_of, reading_of, reading_view};

use crate::fields::FieldError;
use crate::line::{Line, parse_line};
use json::Scratch;
use std::alloc::{AllocError, Global};
use std::str;

/// What a line of a script is.
#[derive(Drop)]
pub enum Reading<'a> {
    /// It is blank or a comment, and has no reply.
    Skipped,
    /// It is no line of a script.
    Bad,
    /// It asks for something.
    Asks(Line<'a>),
}

fn text_of(bytes: &[u8]) -> Option<&str>
    ensures { option_map (λ text. text.now) result ≡ text_of bytes.now }
{
    str::from_utf8(bytes).ok()
}

fn is_blank(bytes: &[u8]) -> bool
    ensures { result ≡ is_blank bytes.now }
{
    bytes
        .iter()
        .all(|byte| matches!(byte, b' ' | b'\t' | b'\r'))
}

/// Reads one line, which is given without the newline behind it. It is skipped where it is blank (spaces, tabs and
/// carriage returns alone) or begins with `#`, and bad where it isn't UTF-8 or spells no line. Numbers are below 2^64,
/// moments at most 999,999,999,999,999 milliseconds, `max` at most 65,536 and a count of tries from 1 to 64. What it
/// asks for borrows the line, and `scratch` where texts had escapes; but rows that are to be owned are kept as the text
/// of their array ([`JsonRows::Array`](json_text::JsonRows)), which is read again when its turn comes.
///
/// Takes time linear in the line. The only error is that a growth was refused.
#[tactic(auto, unfolding(crate::specs::Lines::reading_of))]
pub fn reading_of<'a>(
    alloc: Global,
    bytes: &'a [u8],
    scratch: &'a mut Scratch,
    is_owned: bool,
) -> Result<Reading<'a>, AllocError>
    ensures { IfOk result (λ reading. reading_view reading ≡ reading_of bytes.now) }
{
    if is_blank(bytes) || bytes.starts_with(b"#") {
        return Ok(Reading::Skipped);
    }
    let Some(text) = text_of(bytes) else {
        return Ok(Reading::Bad);
    };
    match parse_line(alloc, text, scratch, is_owned) {
        Ok(line) => Ok(Reading::Asks(line)),
        Err(FieldError::Malformed) => Ok(Reading::Bad),
        Err(FieldError::Memory) => Err(AllocError),
    }
}
