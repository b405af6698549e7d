//! The leaves of a table as a file has them.

ghost use Rattle.std.specs.Prelude.{◌≡◌, ◌++◌, [], ◌∷◌, IfOk, OnOk};
ghost use Rattle.schema_tree.specs.Schema.{tree_of};
ghost use Rattle.schema_tree.specs.Tree.{fields_of as tree_fields};
ghost use Rattle.schema_tree.specs.View.{view as type_view, field_view as column_view, field_views as column_views};
ghost use Rattle.shred.specs.Shape.{fields_of as shape_fields};
ghost use Rattle.shred.specs.Views.{shape_view, field_view as shape_field_view, field_views as shape_field_views};
ghost use Rattle.parquet_schema.specs.Leaves.{leaves_under, field_leaves, leaves_in, leaves_of_fields};
ghost use Rattle.parquet_schema.specs.Views.{leaf_views, way_names};

use page_cells::LeafType;
use schema_tree::{Field, Node, Schema};
use shred::{Shape, ShapeField};
use std::alloc::{AllocError, Allocator, Global};

/// A leaf of a table as a file has it.
#[derive(Debug, Drop)]
pub struct FileLeaf {
    /// The names on the way to it.
    pub names: Vec<String>,
    /// The type of its values.
    pub leaf_type: LeafType,
    /// For each node on the way, from the top, that may be null in the file: whether the table lets it be null.
    pub nullable: Vec<bool>,
}

/// The leaves of fields whose shapes in the file these are, depth first. The time is linear in the leaves and the
/// lengths of the ways to them.
pub(crate) fn leaves_of<A: Allocator>(
    alloc: Global,
    fields: &[Field<A>],
    shapes: &[ShapeField],
) -> Result<Vec<FileLeaf>, AllocError>
    ensures { IfOk result (λ v. leaf_views v.items
        ≡ leaves_of_fields (tree_fields (column_views fields.now)) (shape_fields (shape_field_views shapes.now))) }
{
    let mut way = Way {
        names: Vec::new(alloc),
        nullable: Vec::new(alloc),
    };
    let mut leaves = Vec::new(alloc);
    put_fields(alloc, fields, shapes, &mut way, &mut leaves)?;
    Ok(leaves)
}

/// The leaves of a table's rows whose shape in a file this is, in the table's order, depth first. The time is linear in
/// the leaves and the lengths of the ways to them.
pub fn leaves_of_schema<A: Allocator>(
    alloc: Global,
    schema: &Schema<A>,
    shape: &Shape,
) -> Result<Vec<FileLeaf>, AllocError>
    ensures { IfOk result (λ v. leaf_views v.items ≡ leaves_in (tree_of schema.now) (shape_view shape.now)) }
{
    match shape {
        Shape::Struct(shapes) => leaves_of(alloc, schema.fields(), shapes),
        Shape::Leaf => Ok(Vec::new(alloc)),
    }
}

/// The way to a node: the names of the fields on it, and the table's flags of those that may be null in the file.
#[derive(Drop)]
struct Way<'a> {
    names: Vec<&'a str>,
    nullable: Vec<bool>,
}

/// Puts the leaves of fields behind those before.
#[cycle(leaves)]
fn put_fields<'a, A: Allocator>(
    alloc: Global,
    fields: &'a [Field<A>],
    shapes: &[ShapeField],
    way: &mut Way<'a>,
    leaves: &mut Vec<FileLeaf>,
) -> Result<(), AllocError>
    ensures put { OnOk result (leaf_views leaves.new.items
        ≡ leaf_views leaves.old.items ++ leaves_under (way_names way.old) way.old.nullable.items
        (leaves_of_fields (tree_fields (column_views fields.now)) (shape_fields (shape_field_views shapes.now)))) }
    ensures way { OnOk result ((way_names way.new ≡ way_names way.old)
        × (way.new.nullable.items ≡ way.old.nullable.items)) }
{
    for (field, shape) in fields.iter().zip(shapes) {
        put_field(alloc, field, shape, way, leaves)?;
    }
    Ok(())
}

/// Puts the leaves of a field behind those before.
#[cycle(leaves)]
fn put_field<'a, A: Allocator>(
    alloc: Global,
    field: &'a Field<A>,
    shape: &ShapeField,
    way: &mut Way<'a>,
    leaves: &mut Vec<FileLeaf>,
) -> Result<(), AllocError>
    ensures put { OnOk result (leaf_views leaves.new.items
        ≡ leaf_views leaves.old.items ++ leaves_under (way_names way.old) way.old.nullable.items
        (field_leaves (column_view field.now) (shape_field_view shape.now))) }
    ensures way { OnOk result ((way_names way.new ≡ way_names way.old)
        × (way.new.nullable.items ≡ way.old.nullable.items)) }
{
    way.names.push(field.name.as_str())?;
    if shape.optional {
        way.nullable.push(field.nullable)?;
    }
    put_leaves(alloc, &field.data_type, &shape.shape, way, leaves)?;
    way.names.pop();
    if shape.optional {
        way.nullable.pop();
    }
    Ok(())
}

/// Puts the leaves of a type behind those before.
#[cycle(leaves)]
fn put_leaves<'a, A: Allocator>(
    alloc: Global,
    node: &'a Node<A>,
    shape: &Shape,
    way: &mut Way<'a>,
    leaves: &mut Vec<FileLeaf>,
) -> Result<(), AllocError>
    ensures put { OnOk result (leaf_views leaves.new.items
        ≡ leaf_views leaves.old.items ++ leaves_under (way_names way.old) way.old.nullable.items
        (leaves_in (type_view node.now) (shape_view shape.now))) }
    ensures way { OnOk result ((way_names way.new ≡ way_names way.old)
        × (way.new.nullable.items ≡ way.old.nullable.items)) }
{
    match (node, shape) {
        (Node::Struct(fields), Shape::Struct(shapes)) => {
            put_fields(alloc, fields, shapes, way, leaves)
        }
        (Node::Leaf(primitive), Shape::Leaf) => match LeafType::of(*primitive) {
            Some(leaf_type) => put_leaf(alloc, leaf_type, way, leaves),
            None => Ok(()),
        },
        _ => Ok(()),
    }
}

/// Puts the leaf at the end of a way behind those before.
fn put_leaf(
    alloc: Global,
    leaf_type: LeafType,
    way: &Way,
    leaves: &mut Vec<FileLeaf>,
) -> Result<(), AllocError>
    ensures { OnOk result (leaf_views leaves.new.items ≡ leaf_views leaves.old.items
        ++ (record { names = way_names way.now; leaf_type = leaf_type; nullable = way.now.nullable.items } ∷ [])) }
{
    let mut names = Vec::with_capacity(alloc, way.names.len())?;
    for name in &way.names {
        names.push(String::from_str(alloc, name)?)?;
    }
    leaves.push(FileLeaf {
        names,
        leaf_type,
        nullable: Vec::from_slice(alloc, &way.nullable)?,
    })?;
    Ok(())
}
