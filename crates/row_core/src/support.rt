//! The columns of a schema of which there are no rows.

ghost use Rattle.std.specs.Prelude.{◌≡◌, IfOk, option_map};
ghost use Rattle.row_core.specs.Unsupported.{has_values, unsupported, unsupported_field};
ghost use Rattle.schema_tree.specs.Fault.{path_of, path_inside};
ghost use Rattle.schema_tree.specs.Schema.{tree_of};
ghost use Rattle.schema_tree.specs.Tree.{fields_of};
ghost use Rattle.schema_tree.specs.View.{view, field_view, field_views};

use schema_tree::{ColumnPath, Field, Node, Primitive, Schema};
use std::alloc::{AllocError, Allocator, Global};

/// The path of the first column, depth first, of which there are no rows: an array, a map, a decimal, a float, a
/// double or a timestamp. None where the table has rows. The time is linear in the schema.
pub fn unsupported<A: Allocator>(
    alloc: Global,
    schema: &Schema<A>,
) -> Result<Option<ColumnPath>, AllocError>
    ensures { IfOk result (λ found. option_map path_of found ≡ unsupported (tree_of schema.now)) }
{
    in_fields(alloc, schema.fields())
}

/// Whether there are values of a primitive type.
pub(crate) fn has_values(primitive: Primitive) -> bool
    ensures { result ≡ has_values primitive }
{
    match primitive {
        Primitive::String
        | Primitive::Long
        | Primitive::Integer
        | Primitive::Short
        | Primitive::Byte
        | Primitive::Boolean
        | Primitive::Binary
        | Primitive::Date => true,
        Primitive::Timestamp | Primitive::Float | Primitive::Double | Primitive::Decimal { .. } =>
            false,
    }
}

/// The first such column of a type.
#[cycle(unsupported)]
fn in_type<A: Allocator>(alloc: Global, node: &Node<A>) -> Result<Option<ColumnPath>, AllocError>
    ensures { IfOk result (λ found. option_map path_of found ≡ unsupported (view node.now)) }
{
    match node {
        Node::Leaf(primitive) if has_values(*primitive) => Ok(None),
        Node::Struct(fields) => in_fields(alloc, fields),
        _ => Ok(Some(ColumnPath::root())),
    }
}

/// The first such column of a field.
#[cycle(unsupported)]
fn in_field<A: Allocator>(alloc: Global, field: &Field<A>) -> Result<Option<ColumnPath>, AllocError>
    ensures { IfOk result (λ found. let c = field_view field.now in
        option_map path_of found ≡ option_map (path_inside c.name) (unsupported c.data_type)) }
{
    match in_type(alloc, &field.data_type)? {
        Some(path) => {
            let path = path.inside(alloc, field.name.as_str())?;
            Ok(Some(path))
        }
        None => Ok(None),
    }
}

/// The first such column of the fields.
#[cycle(unsupported)]
fn in_fields<A: Allocator>(
    alloc: Global,
    fields: &[Field<A>],
) -> Result<Option<ColumnPath>, AllocError>
    ensures { IfOk result (λ found.
        option_map path_of found ≡ unsupported_field (fields_of (field_views fields.now))) }
{
    for field in fields {
        if let Some(path) = in_field(alloc, field)? {
            return Ok(Some(path));
        }
    }
    Ok(None)
}
