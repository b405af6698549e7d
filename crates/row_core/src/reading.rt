//! JSON values read as rows.

ghost use Rattle.std.specs.Prelude.{◌≡◌, ◌≤◌, ◌^◌, ◌↔◌, option_map, unwrap_or, IsTrue, true, Some, None};
ghost use Rattle.serde_json.specs.Data.{null, object};
ghost use Rattle.schema_tree.specs.Limits.{is_named, is_sound, are_sound};
ghost use Rattle.json_text.specs.View.{view as json_view, named_view, members_view};
ghost use Rattle.outcomes.specs.Outcome.{Gives};
ghost use Rattle.outcomes.specs.Results.{refused_as};
ghost use Rattle.row_core.specs.Fault.{says, tells, inside};
ghost use Rattle.row_core.specs.InOrder.{field_names, member_names};
ghost use Rattle.row_core.specs.Reading.{row_of, value_of, field_values, leaf_value, whole_value, text_value, bytes_value, unless_null, unknown_name};
ghost use Rattle.row_core.specs.Views.{value_view, row_views};
ghost use Rattle.schema_tree.specs.Schema.{tree_of};
ghost use Rattle.schema_tree.specs.Tree.{struct, fields_of};
ghost use Rattle.schema_tree.specs.View.{view, field_view, field_views};

use crate::fault::{RowError, RowFault};
use crate::ranges::{MAX_BYTES, is_within};
use crate::support::unsupported;
use crate::value::Value;
use hex::FromHexError;
use json_text::{Named, Value as Json, member_of, named};
use schema_tree::{Field, Node, Primitive, Schema};
use std::alloc::{Allocator, Global};

/// The row of a table that a JSON value is.
///
/// A key that is absent is null. Whole numbers and days (since 1970-01-01) have no fraction and no exponent; bytes
/// are a hexadecimal text of either case; a text or bytes have at most 1 MiB.
///
/// V4 for the first column of which there are no rows. Otherwise the first fault, fields in the order of the schema
/// and depth first, and behind a struct's fields the names that none of them has: V1 for null or nothing where there
/// may be none, V2 for another kind, V3 for a value out of its type's range, V5 for a name.
///
/// The time is linear in the value and the schema, but for looking names up in each object whose members don't stand
/// in the order of the fields; where V5 is answered, each name up to that one was compared with those of the fields.
#[tactic(auto, unfolding(crate::specs::Reading::row_of))]
pub fn row_from_json<A: Allocator>(
    alloc: Global,
    schema: &Schema<A>,
    value: &Json<'_>,
) -> Result<Value, RowError>
    // The row or the fault is the one that the value has, unless memory runs out.
    ensures { Gives says value_view result (row_of (tree_of schema.now) (json_view value.now)) }
{
    if let Some(path) = unsupported(alloc, schema)? {
        return Err(RowFault::Unsupported { path }.into());
    }
    if value.is_null() {
        return Err(RowFault::missing().into());
    }
    struct_value(alloc, schema.fields(), value)
}

fn truth_value(value: &Json<'_>) -> Result<Value, RowFault>
    ensures { Gives tells value_view result (leaf_value Primitive.Boolean (json_view value.now)) }
{
    match value.as_bool() {
        Some(truth) => Ok(Value::Bool(truth)),
        None => Err(RowFault::wrong_kind()),
    }
}

/// The whole number that a value is, from -limit to limit - 1.
fn whole_value(limit: u64, value: &Json<'_>) -> Result<Value, RowFault>
    requires { limit ≤ 2 ^ 63 }
    ensures { Gives tells value_view result (whole_value limit (json_view value.now)) }
{
    match value.as_number() {
        Some(number) => match number.as_i128() {
            Some(whole) if is_within(limit, whole) => Ok(Value::Int(whole as i64)),
            Some(_) => Err(RowFault::out_of_range()),
            None => Err(RowFault::wrong_kind()),
        },
        None => Err(RowFault::wrong_kind()),
    }
}

fn text_value(alloc: Global, value: &Json<'_>) -> Result<Value, RowError>
    ensures { Gives says value_view result (text_value (json_view value.now)) }
{
    match value.as_str() {
        Some(text) if text.len() <= MAX_BYTES => {
            let text = String::from_str(alloc, text)?;
            Ok(Value::Text(text))
        }
        Some(_) => Err(RowFault::out_of_range().into()),
        None => Err(RowFault::wrong_kind().into()),
    }
}

/// The bytes that a hexadecimal text is.
fn bytes_value(alloc: Global, value: &Json<'_>) -> Result<Value, RowError>
    ensures { Gives says value_view result (bytes_value (json_view value.now)) }
{
    let Some(text) = value.as_str() else {
        return Err(RowFault::wrong_kind().into());
    };
    match hex::decode(alloc, text.as_bytes()) {
        Ok(bytes) if bytes.len() <= MAX_BYTES => Ok(Value::Bytes(bytes)),
        Ok(_) => Err(RowFault::out_of_range().into()),
        Err(FromHexError::OutOfMemory) => Err(RowError::Memory),
        Err(_) => Err(RowFault::wrong_kind().into()),
    }
}

fn leaf_value(alloc: Global, primitive: Primitive, value: &Json<'_>) -> Result<Value, RowError>
    ensures { Gives says value_view result (leaf_value primitive (json_view value.now)) }
{
    match primitive {
        Primitive::Boolean => Ok(truth_value(value)?),
        Primitive::Byte => Ok(whole_value(1 << 7, value)?),
        Primitive::Short => Ok(whole_value(1 << 15, value)?),
        Primitive::Integer | Primitive::Date => Ok(whole_value(1 << 31, value)?),
        Primitive::Long => Ok(whole_value(1 << 63, value)?),
        Primitive::String => text_value(alloc, value),
        Primitive::Binary => bytes_value(alloc, value),
        Primitive::Timestamp | Primitive::Float | Primitive::Double | Primitive::Decimal { .. } =>
            Err(RowFault::unsupported().into()),
    }
}

/// Whether one of the fields has this name.
fn is_named<A: Allocator>(name: &str, fields: &[Field<A>]) -> bool
    ensures { result ≡ is_named name.now (fields_of (field_views fields.now)) }
{
    for field in fields {
        if name == field.name.as_str() {
            return true;
        }
    }
    false
}

/// The first name, by bytes, that no field has.
fn unknown_name<'a, 't, A: Allocator>(
    fields: &[Field<A>],
    members: &Named<'a, 't>,
) -> Option<&'a str>
    ensures { option_map (λ name. name.now) result
        ≡ unknown_name (fields_of (field_views fields.now)) (named_view members.now.entries) }
{
    for (name, _) in members.iter() {
        if !is_named(name, fields) {
            return Some(*name);
        }
    }
    None
}

/// Whether an object has as many names as there are fields that are found in it.
fn has_just<'a, 't, A: Allocator>(fields: &'a [Field<A>], members: &Named<'a, 't>) -> bool
    requires { are_sound (fields_of (field_views fields.now)) ≡ true }
    ensures { IsTrue result
        → unknown_name (fields_of (field_views fields.now)) (named_view members.now.entries) ≡ None }
{
    let mut found = 0;
    for field in fields {
        if member_of(members, field.name.as_str()).is_some() {
            found += 1;
        }
    }
    found == members.len()
}

/// Whether there are as many members as fields, each with the name of the field at its place. Takes no memory.
fn stands_in_order<A: Allocator>(fields: &[Field<A>], members: &[(&str, Json<'_>)]) -> bool
    ensures { IsTrue result ↔ (member_names members.now ≡ field_names (field_views fields.now)) }
{
    if fields.len() != members.len() {
        return false;
    }
    for (i, field) in fields.iter().enumerate() {
        if field.name.as_str() != members[i].0 {
            return false;
        }
    }
    true
}

/// The value of a type that a value other than null is.
#[cycle(read)]
fn type_value<'a, 't, A: Allocator>(
    alloc: Global,
    node: &'a Node<A>,
    value: &'a Json<'t>,
) -> Result<Value, RowError>
    requires { is_sound (view node.now) ≡ true }
    ensures { Gives says value_view result (value_of (view node.now) (json_view value.now)) }
{
    match node {
        Node::Leaf(primitive) => leaf_value(alloc, *primitive, value),
        Node::Struct(fields) => struct_value(alloc, fields, value),
        Node::Array { .. } => Err(RowFault::unsupported().into()),
        Node::Map { .. } => Err(RowFault::unsupported().into()),
    }
}

/// The struct of these fields that an object is. Its members are looked up by name only where they don't stand in the
/// order of the fields.
#[cycle(read)]
fn struct_value<'a, 't, A: Allocator>(
    alloc: Global,
    fields: &'a [Field<A>],
    value: &'a Json<'t>,
) -> Result<Value, RowError>
    requires { are_sound (fields_of (field_views fields.now)) ≡ true }
    ensures { Gives says value_view result
        (value_of (struct (fields_of (field_views fields.now))) (json_view value.now)) }
{
    match value {
        Json::Object(members) if stands_in_order(fields, members) => {
            let values = values_in_order(alloc, fields, members)?;
            Ok(Value::Struct(values))
        }
        _ => match named(alloc, value)? {
            Some(members) => named_struct(alloc, fields, &members),
            None => Err(RowFault::wrong_kind().into()),
        },
    }
}

/// The values of the fields, in order, where the members are just these and stand in that order.
#[cycle(read)]
fn values_in_order<'a, 't, A: Allocator>(
    alloc: Global,
    fields: &'a [Field<A>],
    members: &'a [(&'t str, Json<'t>)],
) -> Result<Vec<Value>, RowError>
    requires sound { are_sound (fields_of (field_views fields.now)) ≡ true }
    requires in_order { member_names members.now ≡ field_names (field_views fields.now) }
    ensures { Gives says (λ values. row_views values.items) result
        (field_values (fields_of (field_views fields.now)) (object (members_view members.now))) }
{
    let mut values = Vec::with_capacity(alloc, fields.len())?;
    for (i, field) in fields.iter().enumerate() {
        let value = field_value(alloc, field, Some(&members[i].1))?;
        values.push(value)?;
    }
    Ok(values)
}

/// The struct of these fields that an object's members are.
#[cycle(read)]
fn named_struct<'a, 't, A: Allocator>(
    alloc: Global,
    fields: &'a [Field<A>],
    members: &Named<'a, 't>,
) -> Result<Value, RowError>
    requires { are_sound (fields_of (field_views fields.now)) ≡ true }
    ensures { Gives says value_view result
        (value_of (struct (fields_of (field_views fields.now))) (object (named_view members.now.entries))) }
{
    let values = field_values(alloc, fields, members)?;
    if has_just(fields, members) {
        return Ok(Value::Struct(values));
    }
    match unknown_name(fields, members) {
        Some(name) => {
            let name = String::from_str(alloc, name)?;
            Err(RowFault::Unknown { name }.into())
        }
        None => Ok(Value::Struct(values)),
    }
}

/// The values of the fields, in order.
#[cycle(read)]
fn field_values<'a, 't, A: Allocator>(
    alloc: Global,
    fields: &'a [Field<A>],
    members: &Named<'a, 't>,
) -> Result<Vec<Value>, RowError>
    requires { are_sound (fields_of (field_views fields.now)) ≡ true }
    ensures { Gives says (λ values. row_views values.items) result
        (field_values (fields_of (field_views fields.now)) (object (named_view members.now.entries))) }
{
    let mut values = Vec::with_capacity(alloc, fields.len())?;
    for field in fields {
        let value = field_value(alloc, field, member_of(members, field.name.as_str()))?;
        values.push(value)?;
    }
    Ok(values)
}

/// The value of a field, a fault told from outside the field.
#[cycle(read)]
fn field_value<'a, 't, A: Allocator>(
    alloc: Global,
    field: &'a Field<A>,
    value: Option<&'a Json<'t>>,
) -> Result<Value, RowError>
    requires { is_sound (field_view field.now).data_type ≡ true }
    ensures { let c = field_view field.now in
        let d = unwrap_or (option_map (λ v. json_view v.now) value.entry) null in
        Gives says value_view result
        (refused_as (inside c.name) (unless_null c.nullable d (value_of c.data_type d))) }
{
    match value_or_null(alloc, field, value) {
        Ok(value) => Ok(value),
        Err(error) => Err(error.inside(alloc, field.name.as_str())),
    }
}

/// The value of a field, where null or nothing may stand.
#[cycle(read)]
fn value_or_null<'a, 't, A: Allocator>(
    alloc: Global,
    field: &'a Field<A>,
    value: Option<&'a Json<'t>>,
) -> Result<Value, RowError>
    requires { is_sound (field_view field.now).data_type ≡ true }
    ensures { let c = field_view field.now in
        let d = unwrap_or (option_map (λ v. json_view v.now) value.entry) null in
        Gives says value_view result (unless_null c.nullable d (value_of c.data_type d)) }
{
    match value {
        Some(value) if !value.is_null() => type_value(alloc, &field.data_type, value),
        _ if field.nullable => Ok(Value::Null),
        _ => Err(RowFault::missing().into()),
    }
}
