//! A file's columns against a table's.

ghost use Rattle.std.specs.Prelude.{◌≡◌, IfOk, option_map};
ghost use Rattle.schema_tree.specs.Schema.{tree_of};
ghost use Rattle.schema_tree.specs.Tree as tree;
ghost use Rattle.schema_tree.specs.Tree.{fields_of as tree_fields};
ghost use Rattle.schema_tree.specs.View.{view as type_view, field_view as column_view, field_views as column_views};
ghost use Rattle.shred.specs.Shape as shapes;
ghost use Rattle.shred.specs.Views.{shape_view, field_view as shape_field_view, field_views as shape_field_views};
ghost use Rattle.parquet_schema.specs.FileTree as trees;
ghost use Rattle.parquet_schema.specs.FileTree.{fields_of};
ghost use Rattle.parquet_schema.specs.Fitting.{are_distinct, field_named, fitted, fitted_column, fitted_list};
ghost use Rattle.parquet_schema.specs.Fitting.{is_number, physical_number};
ghost use Rattle.parquet_schema.specs.Leaves.{leaves_in};
ghost use Rattle.parquet_schema.specs.Outcome.{Fits};
ghost use Rattle.parquet_footer.specs.Views.{element_views};
ghost use Rattle.parquet_schema.specs.Views.{field_view, field_views, leaf_views, node_view};

use crate::leaves::{FileLeaf, leaves_of};
use crate::reading::file_fields;
use crate::tree::{FileField, FileNode};
use page_cells::LeafType;
use parquet_footer::{FileError, FileFault, SchemaElement};
use schema_tree::{Field, Node, Primitive, Schema};
use shred::{Shape, ShapeField};
use std::alloc::{Allocator, Global};

/// What a table's rows are in a file.
#[derive(Drop)]
pub struct FileShape {
    /// The table's fields in the table's order, and which of them may be null in the file.
    pub shape: Shape,
    /// The leaves, in the table's order, depth first.
    pub leaves: Vec<FileLeaf>,
}

/// The shape that a table's rows have in a file with this list of nodes (Apache Parquet, SchemaElement).
///
/// P8 unless the list is one of a tree, whose fields have the table's names, in any order and none twice, and no other,
/// and the physical types of the table's; also where a column of the table has no rows. The file's fields may be
/// required or optional whatever the table's are. The time is linear in the list, but for the names of one struct,
/// which are compared pairwise.
pub fn fit<A: Allocator, B: Allocator>(
    alloc: Global,
    schema: &Schema<A>,
    elements: &[SchemaElement<B>],
) -> Result<FileShape, FileError>
    // The shape is the one that the list has for the table, and P8 comes just where it has none.
    ensures shape { Fits (λ s. shape_view s.shape) result
        (fitted_list (tree_of schema.now) (element_views elements.now)) }
    ensures leaves { IfOk result (λ s. leaf_views s.leaves.items
        ≡ leaves_in (tree_of schema.now) (shape_view s.shape)) }
{
    let fields = file_fields(alloc, elements)?;
    let shapes = fitted_fields(alloc, schema.fields(), &fields)?;
    let leaves = leaves_of(alloc, schema.fields(), &shapes)?;
    Ok(FileShape {
        shape: Shape::Struct(shapes),
        leaves,
    })
}

/// The shapes of a struct's fields in a group of the file.
#[cycle(fitting)]
fn fitted_fields<A: Allocator>(
    alloc: Global,
    fields: &[Field<A>],
    file: &[FileField],
) -> Result<Vec<ShapeField>, FileError>
    ensures { Fits (λ v. shapes.struct (shapes.fields_of (shape_field_views v.items))) result
        (fitted (tree.struct (tree_fields (column_views fields.now)))
        (trees.group (fields_of (field_views file.now)))) }
{
    if fields.len() != file.len() || !are_distinct(file) {
        return Err(FileFault::SchemaMismatch.into());
    }
    let mut shapes = Vec::with_capacity(alloc, fields.len())?;
    for field in fields {
        shapes.push(fitted_field(alloc, field, file)?)?;
    }
    Ok(shapes)
}

/// The shape of a field in a group of the file.
#[cycle(fitting)]
fn fitted_field<A: Allocator>(
    alloc: Global,
    field: &Field<A>,
    file: &[FileField],
) -> Result<ShapeField, FileError>
    ensures { Fits shape_field_view result (fitted_column (column_view field.now) (fields_of (field_views file.now))) }
{
    let Some(found) = field_named(file, field.name.as_bytes()) else {
        return Err(FileFault::SchemaMismatch.into());
    };
    Ok(ShapeField {
        name: String::from_str(alloc, field.name.as_str())?,
        optional: found.optional,
        shape: fitted_node(alloc, &field.data_type, &found.node)?,
    })
}

/// The shape of a type's values in a node of the file.
#[cycle(fitting)]
fn fitted_node<A: Allocator>(
    alloc: Global,
    node: &Node<A>,
    file: &FileNode,
) -> Result<Shape, FileError>
    ensures { Fits shape_view result (fitted (type_view node.now) (node_view file.now)) }
{
    match (node, file) {
        (Node::Struct(fields), FileNode::Group(group)) => {
            let shapes = fitted_fields(alloc, fields, group)?;
            Ok(Shape::Struct(shapes))
        }
        (Node::Leaf(primitive), FileNode::Leaf(number)) if is_physical(*primitive, *number) => {
            Ok(Shape::Leaf)
        }
        _ => Err(FileFault::SchemaMismatch.into()),
    }
}

/// Whether this is the number of a primitive type's physical type.
fn is_physical(primitive: Primitive, number: i64) -> bool
    ensures { result ≡ is_number number (physical_number primitive) }
{
    match LeafType::of(primitive) {
        Some(leaf_type) => leaf_type.physical_type().number() == number,
        None => false,
    }
}

/// Whether no two fields have one name.
fn are_distinct(fields: &[FileField]) -> bool
    ensures { result ≡ are_distinct (fields_of (field_views fields.now)) }
{
    let mut rest = fields;
    while let Some((first, others)) = rest.split_first() {
        if field_named(others, &first.name).is_some() {
            return false;
        }
        rest = others;
    }
    true
}

/// The first field of this name.
fn field_named<'a>(fields: &'a [FileField], name: &[u8]) -> Option<&'a FileField>
    ensures { option_map (λ f. field_view f.now) result ≡ field_named name.now (fields_of (field_views fields.now)) }
{
    fields.iter().find(|field| field.name.as_slice() == name)
}
