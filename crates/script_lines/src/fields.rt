//! The fields of a line: words, numbers, and arrays.
ghost use Rattle.std.specs.Prelude.{◌≡◌, option_map};
ghost use Rattle.json_text.specs.Rows.{array_data, rows_data};
ghost use Rattle.json_text.specs.View.{items_view};
ghost use Rattle.script_lines.specs.Fields.{LineGives, word_and_rest, script_number, number_between, moment_of, max_of, tries_of, json_array_in};

use json::Scratch;
use json_text::{ArrayText, JsonRows, TextError, Value, value_in};
use std::alloc::Global;

/// Why a line could not be read.
#[derive(Clone, Copy, Debug, PartialEq, Eq)]
pub enum FieldError {
    /// The text spells no such line or field.
    Malformed,
    /// A growth was refused.
    Memory,
}

/// The word before the first space, and the text behind that space.
pub fn word_and_rest(text: &str) -> Option<(&str, &str)>
    ensures { option_map (λ p. (p.0.now, p.1.now)) result ≡ word_and_rest text.now }
{
    text.split_once(' ')
}

/// A number below 2^64, as `u64::from_str` reads it.
#[tactic(auto, using(crate::proofs::Numbers::number_of_parsed))]
pub fn number_of(text: &str) -> Option<u64>
    ensures { result ≡ script_number text.now }
{
    text.parse::<u64>().ok()
}

/// A number from `low` to `high`.
#[tactic(auto, unfolding(crate::specs::Fields::number_between))]
pub fn number_between(text: &str, low: u64, high: u64) -> Option<u64>
    ensures { result ≡ number_between low high text.now }
{
    let number = number_of(text)?;
    if low <= number && number <= high {
        Some(number)
    } else {
        None
    }
}

/// A moment in milliseconds, up to 999,999,999,999,999.
pub fn moment_of(text: &str) -> Option<u64>
    ensures { result ≡ moment_of text.now }
{
    number_between(text, 0, 999_999_999_999_999)
}

/// How many rows a read hands out at most, up to 65,536.
pub fn max_of(text: &str) -> Option<u64>
    ensures { result ≡ max_of text.now }
{
    number_between(text, 0, 65_536)
}

/// How often a session tries to put its commit, from 1 to 64.
pub fn tries_of(text: &str) -> Option<u64>
    ensures { result ≡ tries_of text.now }
{
    number_between(text, 1, 64)
}

/// The members of a JSON array.
#[tactic(auto, unfolding(crate::specs::Fields::json_array_in))]
pub fn array_of<'a>(
    alloc: Global,
    text: &'a str,
    scratch: &'a mut Scratch,
) -> Result<Vec<Value<'a>>, FieldError>
    ensures { LineGives (λ v. items_view v.items) result (json_array_in text.now) }
{
    match value_in(alloc, text, scratch) {
        Ok(Value::Array(items)) => Ok(items),
        Ok(_) | Err(TextError::Malformed) => Err(FieldError::Malformed),
        Err(TextError::Memory) => Err(FieldError::Memory),
    }
}

/// The members of a JSON array, which owns its text.
#[tactic(auto, unfolding(crate::specs::Fields::json_array_in))]
fn owned_array(alloc: Global, text: &str) -> Result<ArrayText, FieldError>
    ensures { LineGives array_data result (json_array_in text.now) }
{
    match ArrayText::from_text(alloc, text) {
        Ok(array) => Ok(array),
        Err(TextError::Malformed) => Err(FieldError::Malformed),
        Err(TextError::Memory) => Err(FieldError::Memory),
    }
}

/// The members of a JSON array as rows, which borrow the text, or own it.
pub fn array_rows<'a>(
    alloc: Global,
    text: &'a str,
    scratch: &'a mut Scratch,
    is_owned: bool,
) -> Result<JsonRows<'a>, FieldError>
    ensures { LineGives rows_data result (json_array_in text.now) }
{
    if is_owned {
        Ok(JsonRows::Array(owned_array(alloc, text)?))
    } else {
        Ok(JsonRows::Values(array_of(alloc, text, scratch)?))
    }
}
