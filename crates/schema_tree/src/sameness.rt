//! Types compared, whatever allocators they lie in.

ghost use Rattle.std.specs.Prelude.{◌≡◌, IsTrue, false};
ghost use Rattle.schema_tree.specs.Tree.{fields_of};
ghost use Rattle.schema_tree.specs.View.{view, field_view, field_views};
ghost use Rattle.schema_tree.specs.Sameness.{has_fraction, have_fraction};
ghost use Rattle.serde_json.specs.Written.{has_float};

use crate::node::{Field, Node};
use std::alloc::Allocator;

/// Whether both are one type.
#[cycle(same)]
fn same_node<A: Allocator, B: Allocator>(node: &Node<A>, other: &Node<B>) -> bool
    ensures sound { IsTrue result → view node.now ≡ view other.now }
    ensures complete { has_fraction (view node.now) ≡ false
        → view node.now ≡ view other.now → IsTrue result }
{
    match node {
        Node::Leaf(primitive) => match other {
            Node::Leaf(others) => *primitive == *others,
            _ => false,
        },
        Node::Struct(fields) => match other {
            Node::Struct(others) => same_fields(fields, others),
            _ => false,
        },
        Node::Array {
            element,
            contains_null,
        } => match other {
            Node::Array {
                element: others,
                contains_null: nulls,
            } => *contains_null == *nulls && same_node(element, others),
            _ => false,
        },
        Node::Map {
            key,
            value,
            value_contains_null,
        } => match other {
            Node::Map {
                key: other_key,
                value: other_value,
                value_contains_null: nulls,
            } => {
                *value_contains_null == *nulls
                    && same_node(key, other_key)
                    && same_node(value, other_value)
            }
            _ => false,
        },
    }
}

/// Whether both are one field.
#[cycle(same)]
fn same_field<A: Allocator, B: Allocator>(field: &Field<A>, other: &Field<B>) -> bool
    ensures sound { IsTrue result → field_view field.now ≡ field_view other.now }
    ensures complete { has_fraction (field_view field.now).data_type ≡ false
        → has_float (field_view field.now).metadata ≡ false
        → field_view field.now ≡ field_view other.now → IsTrue result }
{
    field.name.as_str() == other.name.as_str()
        && field.nullable == other.nullable
        && field.metadata.same(&other.metadata)
        && same_node(&field.data_type, &other.data_type)
}

/// Whether both are the same fields, in one order. It takes no memory.
#[cycle(same)]
pub(crate) fn same_fields<A: Allocator, B: Allocator>(
    fields: &[Field<A>],
    others: &[Field<B>],
) -> bool
    ensures sound { IsTrue result → field_views fields.now ≡ field_views others.now }
    ensures complete { have_fraction (fields_of (field_views fields.now)) ≡ false
        → field_views fields.now ≡ field_views others.now → IsTrue result }
{
    if fields.len() != others.len() {
        return false;
    }
    for (i, field) in fields.iter().enumerate() {
        if !same_field(field, &others[i]) {
            return false;
        }
    }
    true
}
