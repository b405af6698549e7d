//! The shape of a row.

ghost use Rattle.std.specs.Prelude.{◌≡◌, IfOk};
ghost use Rattle.schema_tree.specs.Schema.{tree_of};
ghost use Rattle.schema_tree.specs.Tree.{fields_of as tree_fields};
ghost use Rattle.schema_tree.specs.View.{view as node_view, field_view as column_view, field_views as column_views};
ghost use Rattle.shred.specs.Shape.{HasFields, shape_of, shapes_of, fields_of, field_of};
ghost use Rattle.shred.specs.Views.{shape_view, field_view, field_views};

use schema_tree::{Field, Node, Schema};
use std::alloc::{AllocError, Allocator, Global};

/// The shape of a row or of a value in it: a tree. That of a table is made of its schema; a reader of files makes
/// one of a file's own flags, which may mark a field optional or required whatever the table says.
#[cycle(shape)]
#[derive(Drop)]
pub enum Shape {
    /// A value that is no struct.
    Leaf,
    /// A struct, its fields in order.
    Struct(Vec<ShapeField>),
}

/// A field of a struct.
#[cycle(shape)]
#[derive(Drop)]
pub struct ShapeField {
    /// The name, which stands in the path of a fault.
    pub name: String,
    /// Whether it may be null.
    pub optional: bool,
    /// The shape of its values.
    pub shape: Shape,
}

impl Shape {
    /// The shape of the rows of a table. An array or a map stands as one leaf.
    pub fn of_schema<A: Allocator>(alloc: Global, schema: &Schema<A>) -> Result<Shape, AllocError>
        ensures shape { IfOk result (λ s. shape_view s ≡ shape_of (tree_of schema.now)) }
        // Each struct has a field.
        ensures filled { IfOk result (λ s. HasFields (shape_view s)) }
    {
        Ok(Shape::Struct(shapes(alloc, schema.fields())?))
    }
}

/// The shapes of fields.
#[cycle(of_node)]
fn shapes<A: Allocator>(alloc: Global, fields: &[Field<A>]) -> Result<Vec<ShapeField>, AllocError>
    ensures { IfOk result (λ v. fields_of (field_views v.items) ≡ shapes_of (tree_fields (column_views fields.now))) }
{
    let mut shapes = Vec::with_capacity(alloc, fields.len())?;
    for field in fields {
        let shape = field_shape(alloc, field)?;
        shapes.push(shape)?;
    }
    Ok(shapes)
}

/// The shape of a field.
#[cycle(of_node)]
fn field_shape<A: Allocator>(alloc: Global, field: &Field<A>) -> Result<ShapeField, AllocError>
    ensures { IfOk result (λ f. field_view f ≡ field_of (column_view field.now)) }
{
    Ok(ShapeField {
        name: String::from_str(alloc, field.name.as_str())?,
        optional: field.nullable,
        shape: node_shape(alloc, &field.data_type)?,
    })
}

/// The shape of a type.
#[cycle(of_node)]
fn node_shape<A: Allocator>(alloc: Global, node: &Node<A>) -> Result<Shape, AllocError>
    ensures { IfOk result (λ s. shape_view s ≡ shape_of (node_view node.now)) }
{
    match node {
        Node::Struct(fields) => {
            let shapes = shapes(alloc, fields)?;
            Ok(Shape::Struct(shapes))
        }
        Node::Leaf(_) => Ok(Shape::Leaf),
        Node::Array { .. } => Ok(Shape::Leaf),
        Node::Map { .. } => Ok(Shape::Leaf),
    }
}
