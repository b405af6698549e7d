//! Types copied into another allocator.

ghost use Rattle.std.specs.Prelude.{◌≡◌, IfOk};
ghost use Rattle.schema_tree.specs.View.{view, field_view, field_views};

use crate::node::{Field, Node};
use std::alloc::{AllocError, Allocator};

/// The same type in another allocator.
#[cycle(copy)]
fn copy_node<A: Allocator, B: Allocator + Copy>(
    node: &Node<A>,
    alloc: B,
) -> Result<Node<B>, AllocError>
    ensures { IfOk result (λ copy. view copy ≡ view node.now) }
{
    match node {
        Node::Leaf(primitive) => Ok(Node::Leaf(*primitive)),
        Node::Struct(fields) => {
            let fields = copy_fields(fields, alloc)?;
            Ok(Node::Struct(fields))
        }
        Node::Array {
            element,
            contains_null,
        } => {
            let element = Box::new(alloc, copy_node(element, alloc)?)?;
            Ok(Node::Array {
                element,
                contains_null: *contains_null,
            })
        }
        Node::Map {
            key,
            value,
            value_contains_null,
        } => {
            let key = Box::new(alloc, copy_node(key, alloc)?)?;
            let value = Box::new(alloc, copy_node(value, alloc)?)?;
            Ok(Node::Map {
                key,
                value,
                value_contains_null: *value_contains_null,
            })
        }
    }
}

/// The same field in another allocator.
#[cycle(copy)]
fn copy_field<A: Allocator, B: Allocator + Copy>(
    field: &Field<A>,
    alloc: B,
) -> Result<Field<B>, AllocError>
    ensures { IfOk result (λ copy. field_view copy ≡ field_view field.now) }
{
    Ok(Field {
        name: String::from_str(alloc, field.name.as_str())?,
        data_type: copy_node(&field.data_type, alloc)?,
        nullable: field.nullable,
        metadata: field.metadata.copy_into(alloc)?,
    })
}

/// The same fields in another allocator.
#[cycle(copy)]
pub(crate) fn copy_fields<A: Allocator, B: Allocator + Copy>(
    fields: &[Field<A>],
    alloc: B,
) -> Result<Vec<Field<B>, B>, AllocError>
    ensures { IfOk result (λ copies. field_views copies.items ≡ field_views fields.now) }
{
    let mut copies = Vec::with_capacity(alloc, fields.len())?;
    for field in fields {
        let copy = copy_field(field, alloc)?;
        copies.push(copy)?;
    }
    Ok(copies)
}
