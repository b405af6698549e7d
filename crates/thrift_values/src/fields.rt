//! The fields of a struct, each read as the kind that its reader needs: a number, a text, a struct or a list. Of
//! several fields of one id the last counts.

ghost use Rattle.std.specs.Prelude.{◌≡◌, is_some, option_map};
ghost use Rattle.std.specs.List.{list_all};
ghost use Rattle.lake_bytes.specs.Reading.{IsReading};
ghost use Rattle.thrift_values.specs.Fields.{as_integer, as_text, as_struct, as_list, optional, needed, natural, count, TreeGives};
ghost use Rattle.thrift_values.specs.View.{view, views, texts_view};

use crate::fault::{ReadError, ThriftFault};
use crate::value::TValue;
use lake_bytes::ByteFault;
use std::alloc::Allocator;

/// A whole number of any width.
fn as_integer<A: Allocator>(value: &TValue<A>) -> Option<i64>
    ensures { result ≡ as_integer (view value.now) }
{
    match value {
        TValue::Int(number) => Some(*number),
        _ => None,
    }
}

/// The bytes of a binary.
fn as_text<A: Allocator>(value: &TValue<A>) -> Option<&[u8]>
    ensures { option_map (λ text. text.now) result ≡ as_text (view value.now) }
{
    match value {
        TValue::Bytes(text) => Some(text),
        _ => None,
    }
}

/// The number of a field that may be missing: a whole number of any width. None where it is missing or of another
/// kind. The time is linear in the struct's fields, as it is for each function below that looks for a field.
pub fn optional_integer<A: Allocator>(tree: &TValue<A>, id: i16) -> Option<i64>
    ensures { result ≡ optional as_integer id (view tree.now) }
{
    match tree.field(id) {
        Some(value) => as_integer(value),
        None => None,
    }
}

/// The number of a field: a whole number of any width. TH4 where it is missing or of another kind.
pub fn integer<A: Allocator>(tree: &TValue<A>, id: i16) -> Result<i64, ThriftFault>
    ensures { result ≡ needed as_integer id (view tree.now) }
{
    optional_integer(tree, id).ok_or(ThriftFault::MissingField { id })
}

/// A number that can't be negative. B3 where it is.
pub fn natural(number: i64) -> Result<u64, ThriftFault>
    ensures { result ≡ natural number }
{
    if number < 0 {
        return Err(ThriftFault::Bytes(ByteFault::OutOfRange));
    }
    Ok(number as u64)
}

/// The count in a field. TH4 where it is missing or of another kind, B3 where it is negative.
pub fn count<A: Allocator>(tree: &TValue<A>, id: i16) -> Result<u64, ThriftFault>
    ensures { result ≡ count id (view tree.now) }
{
    natural(integer(tree, id)?)
}

/// The text in a field: the bytes of a binary. TH4 where it is missing or of another kind.
pub fn text<A: Allocator>(tree: &TValue<A>, id: i16) -> Result<&[u8], ThriftFault>
    ensures { IsReading (λ text. text.now) result (needed as_text id (view tree.now)) }
{
    match tree.field(id) {
        Some(TValue::Bytes(text)) => Ok(text),
        _ => Err(ThriftFault::MissingField { id }),
    }
}

/// The struct in a field. TH4 where it is missing or of another kind.
pub fn structure<A: Allocator>(tree: &TValue<A>, id: i16) -> Result<&TValue<A>, ThriftFault>
    ensures { IsReading (λ value. view value.now) result (needed as_struct id (view tree.now)) }
{
    match tree.field(id) {
        Some(value) if is_struct(value) => Ok(value),
        _ => Err(ThriftFault::MissingField { id }),
    }
}

fn is_struct<A: Allocator>(value: &TValue<A>) -> bool
    ensures { result ≡ is_some (as_struct (view value.now)) }
{
    matches!(value, TValue::Struct(_))
}

/// The members of the list of structs in a field. TH4 where it is missing or of another kind, as a list with a
/// member that is no struct is. The time is linear in the struct's fields and the members.
pub fn structs<A: Allocator>(tree: &TValue<A>, id: i16) -> Result<&[TValue<A>], ThriftFault>
    ensures { IsReading (λ members. views members.now) result (needed (as_list as_struct) id (view tree.now)) }
{
    match tree.field(id) {
        Some(TValue::List(members)) if are_structs(members) => Ok(members),
        _ => Err(ThriftFault::MissingField { id }),
    }
}

/// Every member is a struct.
fn are_structs<A: Allocator>(members: &[TValue<A>]) -> bool
    ensures { result ≡ list_all (λ member. is_some (as_struct (view member))) members.now }
{
    members.iter().all(is_struct)
}

/// Copies of the members of the list of texts in a field, in the memory of `alloc`. TH4 where it is missing or of
/// another kind, as a list with a member that is no binary is. The time is linear in the struct's fields and the bytes
/// that are copied.
pub fn texts<A: Allocator, B: Allocator + Copy>(
    alloc: B,
    tree: &TValue<A>,
    id: i16,
) -> Result<Vec<Vec<u8, B>, B>, ReadError>
    ensures { TreeGives (λ texts. texts_view texts.items) result (needed (as_list as_text) id (view tree.now)) }
{
    let Some(TValue::List(members)) = tree.field(id) else {
        return Err(ThriftFault::MissingField { id }.into());
    };
    let mut texts = Vec::new(alloc);
    for member in members {
        let Some(text) = as_text(member) else {
            return Err(ThriftFault::MissingField { id }.into());
        };
        texts.push(Vec::from_slice(alloc, text)?)?;
    }
    Ok(texts)
}
