//! From a text to a value, in one pass over its tokens.
ghost use Rattle.std.specs.Prelude.{◌≡◌, ◌<◌, ◌≤◌, length, Some, None, Err, IfOk, OnOk};
ghost use Rattle.json.specs.Json.{value, items, members};
ghost use Rattle.serde_json.specs.Data.{no_members};
ghost use Rattle.serde_json.specs.Read.{of_json, of_items, of_members, converted, read as read_text};
ghost use Rattle.json_text.specs.View.{view, items_view, members_view};

use crate::error::TextError;
use crate::number::number_in;
use crate::value::Value;
use json::{Reader, Scratch, Token};
use std::alloc::Global;

/// How deep arrays and objects nest at most.
const MAX_DEPTH: usize = 127;

/// The value that a text is. Its texts are borrowed from the text, or from the scratch where they had escapes.
///
/// Takes time linear in the text.
pub fn value_in<'a>(
    alloc: Global,
    text: &'a str,
    scratch: &'a mut Scratch,
) -> Result<Value<'a>, TextError>
    ensures read { IfOk result (λ v. read_text text.now ≡ Some (view v)) }
    ensures malformed { result ≡ Err TextError.Malformed → read_text text.now ≡ None }
{
    let mut reader = Reader::new(text, scratch)?;
    let value = read(alloc, &mut reader, MAX_DEPTH)?;
    if reader.next().is_some() {
        return Err(TextError::Malformed);
    }
    Ok(value)
}

#[cycle(read)]
fn read<'a>(alloc: Global, reader: &mut Reader<'a>, depth: usize) -> Result<Value<'a>, TextError>
    ensures ok { IfOk result
        (λ v. converted of_json (value depth reader.old) ≡ Some (view v, reader.new)) }
    ensures shorter { OnOk result (length reader.new < length reader.old) }
    ensures err { result ≡ Err TextError.Malformed → converted of_json (value depth reader.old) ≡ None }
{
    let token = reader.next().ok_or(TextError::Malformed)?;
    match token {
        Token::String(text) => Ok(Value::String(text)),
        Token::Number(text) => match number_in(text) {
            Some(number) => Ok(Value::Number(number)),
            None => Err(TextError::Malformed),
        },
        Token::Bool(b) => Ok(Value::Bool(b)),
        Token::Null => Ok(Value::Null),
        Token::EndObject | Token::EndArray | Token::Key(_) | Token::Bad => {
            Err(TextError::Malformed)
        }
        Token::BeginArray => {
            if depth == 0 {
                return Err(TextError::Malformed);
            }
            Ok(Value::Array(read_items(alloc, reader, depth - 1)?))
        }
        Token::BeginObject => {
            if depth == 0 {
                return Err(TextError::Malformed);
            }
            Ok(Value::Object(read_members(alloc, reader, depth - 1)?))
        }
    }
}

#[cycle(read)]
fn read_items<'a>(
    alloc: Global,
    reader: &mut Reader<'a>,
    depth: usize,
) -> Result<Vec<Value<'a>>, TextError>
    ensures ok { IfOk result
        (λ v. converted of_items (items (value depth) (length reader.old) reader.old)
        ≡ Some (items_view v.items, reader.new)) }
    ensures shorter { OnOk result (length reader.new < length reader.old) }
    ensures err { result ≡ Err TextError.Malformed
        → converted of_items (items (value depth) (length reader.old) reader.old) ≡ None }
{
    let mut found = Vec::new(alloc);
    'items: while !reader.take_end_array() {
        let item = read(alloc, reader, depth)?;
        found.push(item)?;
    }
    Ok(found)
}

#[cycle(read)]
fn read_members<'a>(
    alloc: Global,
    reader: &mut Reader<'a>,
    depth: usize,
) -> Result<Vec<(&'a str, Value<'a>)>, TextError>
    ensures ok { IfOk result
        (λ m. converted (λ ms. of_members ms no_members)
        (members (value depth) (length reader.old) reader.old)
        ≡ Some (members_view m.items, reader.new)) }
    ensures shorter { OnOk result (length reader.new < length reader.old) }
    ensures err { result ≡ Err TextError.Malformed
        → converted (λ ms. of_members ms no_members)
        (members (value depth) (length reader.old) reader.old) ≡ None }
{
    let mut found = Vec::new(alloc);
    'members: while let Some(name) = reader.next_key()? {
        let member = read(alloc, reader, depth)?;
        found.push((name, member))?;
    }
    Ok(found)
}
