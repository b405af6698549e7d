//! Whether a value is a row of a table.

ghost use Rattle.std.specs.Prelude.{◌≡◌, ◌↔◌, ◌&&◌, ◌||◌, IsTrue, is_none};
ghost use Rattle.row_core.specs.Conforms.{Conforms, is_value, are_values, is_leaf_value, is_null, is_short, is_byte};
ghost use Rattle.std.specs.List.{list_all};
ghost use Rattle.row_core.specs.Rows.{values_of};
ghost use Rattle.row_core.specs.Unsupported.{unsupported, unsupported_field};
ghost use Rattle.row_core.specs.Views.{value_view, row_views};
ghost use Rattle.schema_tree.specs.Schema.{tree_of};
ghost use Rattle.schema_tree.specs.Tree.{struct, fields_of};
ghost use Rattle.schema_tree.specs.View.{view, field_view, field_views};

use crate::ranges::{MAX_BYTES, is_within};
use crate::support::has_values;
use crate::value::Value;
use schema_tree::{Field, Node, Primitive, Schema};
use std::alloc::Allocator;

/// Whether a value is a row of a table of this schema: a struct with one value for each field, null only where the
/// field may be null, each in the range of its type. There is none where a column is an array, a map, a decimal, a
/// float, a double or a timestamp. It takes no memory, and the time is linear in the row and the schema.
pub fn conforms<A: Allocator>(schema: &Schema<A>, row: &Value) -> bool
    ensures { IsTrue result ↔ Conforms (tree_of schema.now) (value_view row.now) }
{
    are_supported(schema.fields()) && is_struct(schema.fields(), row)
}

/// Whether there are values of a type.
#[cycle(support)]
fn is_supported<A: Allocator>(node: &Node<A>) -> bool
    ensures { result ≡ is_none (unsupported (view node.now)) }
{
    match node {
        Node::Leaf(primitive) => has_values(*primitive),
        Node::Struct(fields) => are_supported(fields),
        Node::Array { .. } => false,
        Node::Map { .. } => false,
    }
}

/// Whether there are values of the types of all fields.
#[cycle(support)]
fn are_supported<A: Allocator>(fields: &[Field<A>]) -> bool
    ensures { result ≡ is_none (unsupported_field (fields_of (field_views fields.now))) }
{
    for field in fields {
        if !is_supported(&field.data_type) {
            return false;
        }
    }
    true
}

fn is_null(value: &Value) -> bool
    ensures { result ≡ is_null (value_view value.now) }
{
    matches!(value, Value::Null)
}

/// Whether bytes are no more than there may be.
fn are_short(bytes: &[u8]) -> bool
    ensures { result ≡ is_short bytes.now && list_all is_byte bytes.now }
{
    bytes.len() <= MAX_BYTES
}

fn is_leaf_value(primitive: Primitive, value: &Value) -> bool
    ensures { result ≡ is_leaf_value primitive (value_view value.now) }
{
    match (primitive, value) {
        (Primitive::Boolean, Value::Bool(_)) => true,
        (Primitive::Byte, Value::Int(whole)) => is_within(1 << 7, i128::from(*whole)),
        (Primitive::Short, Value::Int(whole)) => is_within(1 << 15, i128::from(*whole)),
        (Primitive::Integer, Value::Int(whole)) => is_within(1 << 31, i128::from(*whole)),
        (Primitive::Long, Value::Int(whole)) => is_within(1 << 63, i128::from(*whole)),
        (Primitive::Date, Value::Int(whole)) => is_within(1 << 31, i128::from(*whole)),
        (Primitive::String, Value::Text(text)) => text.len() <= MAX_BYTES,
        (Primitive::Binary, Value::Bytes(bytes)) => are_short(bytes),
        _ => false,
    }
}

/// Whether a value is one of the type.
#[cycle(conform)]
fn is_value<A: Allocator>(node: &Node<A>, value: &Value) -> bool
    ensures { result ≡ is_value (view node.now) (value_view value.now) }
{
    match node {
        Node::Leaf(primitive) => is_leaf_value(*primitive, value),
        Node::Struct(fields) => is_struct(fields, value),
        Node::Array { .. } => false,
        Node::Map { .. } => false,
    }
}

/// Whether a value is a struct of these fields.
#[cycle(conform)]
fn is_struct<A: Allocator>(fields: &[Field<A>], value: &Value) -> bool
    ensures { result ≡ is_value (struct (fields_of (field_views fields.now))) (value_view value.now) }
{
    match value {
        Value::Struct(values) => are_values(fields, values),
        Value::Null => false,
        Value::Bool(_) => false,
        Value::Int(_) => false,
        Value::Text(_) => false,
        Value::Bytes(_) => false,
    }
}

/// Whether these are the values of the fields, one of each.
#[cycle(conform)]
fn are_values<A: Allocator>(fields: &[Field<A>], values: &[Value]) -> bool
    ensures { result ≡ are_values (fields_of (field_views fields.now)) (values_of (row_views values.now)) }
{
    if fields.len() != values.len() {
        return false;
    }
    for (i, field) in fields.iter().enumerate() {
        if !is_field_value(field, &values[i]) {
            return false;
        }
    }
    true
}

/// Whether a value is one of the field.
#[cycle(conform)]
fn is_field_value<A: Allocator>(field: &Field<A>, value: &Value) -> bool
    ensures { let c = field_view field.now in let v = value_view value.now in
        result ≡ c.nullable && is_null v || is_value c.data_type v }
{
    field.nullable && is_null(value) || is_value(&field.data_type, value)
}
