//! The values of a footer that is written (Apache Parquet, parquet.thrift).

ghost use Rattle.std.specs.Prelude.{◌≡◌, ◌<◌, ◌≤◌, ◌++◌, ◌^◌, IfOk, OnOk, map, option_map, string_bytes};
ghost use Rattle.thrift_core.specs.Tree as thrift;
ghost use Rattle.thrift_core.specs.View.{view, views, field_view, field_views};
ghost use Rattle.schema_tree.specs.Schema.{tree_of};
ghost use Rattle.schema_tree.specs.Tree.{fields_of as tree_fields};
ghost use Rattle.schema_tree.specs.View.{view as type_view, field_views as column_views};
ghost use Rattle.parquet_schema.specs.FileTree.{repetition};
ghost use Rattle.parquet_schema.specs.Views.{leaf_view};
ghost use Rattle.parquet_file.specs.Writing.{chunk_tree, column_tree, converted_fields, field_elements, footer_tree, group_element, group_tree, leaf_element, members, node_elements, root_element, schema_elements};

use crate::columns::UNCOMPRESSED;
use parquet_pages::{LeafType, PLAIN, RLE};
use parquet_schema::FileLeaf;
use schema_tree::{Field as SchemaField, Node, Schema};
use std::alloc::{AllocError, Allocator, Global};
use thrift_core::{Field, TValue};

/// The name of the schema's root.
const ROOT: &[u8] = b"schema";

/// What wrote the file.
const CREATED_BY: &[u8] = b"lake version 1";

/// FieldRepetitionType REQUIRED.
const REQUIRED: i64 = 0;

/// FieldRepetitionType OPTIONAL.
const OPTIONAL: i64 = 1;

/// A field that is a whole number.
fn integer(id: i16, number: i64) -> Field<Global>
    ensures { field_view result ≡ (id, thrift.integer number) }
{
    Field {
        id,
        value: TValue::Int(number),
    }
}

/// A field that is a list.
fn list(id: i16, values: Vec<TValue<Global>>) -> Field<Global>
    ensures { field_view result ≡ (id, members (views values.items)) }
{
    Field {
        id,
        value: TValue::List(values),
    }
}

/// A text.
fn text(alloc: Global, text: &[u8]) -> Result<TValue<Global>, AllocError>
    ensures { IfOk result (λ value. view value ≡ thrift.binary text.now) }
{
    Ok(TValue::Bytes(Vec::from_slice(alloc, text)?))
}

/// A field that is a text.
fn text_field(alloc: Global, id: i16, bytes: &[u8]) -> Result<Field<Global>, AllocError>
    ensures { IfOk result (λ field. field_view field ≡ (id, thrift.binary bytes.now)) }
{
    Ok(Field {
        id,
        value: text(alloc, bytes)?,
    })
}

/// The number of a repetition.
fn repetition(nullable: bool) -> i64
    ensures { result ≡ repetition nullable }
{
    if nullable { OPTIONAL } else { REQUIRED }
}

/// What the file says of itself (FileMetaData).
pub(crate) fn footer_tree<A: Allocator>(
    alloc: Global,
    schema: &Schema<A>,
    groups: Vec<TValue<Global>>,
    rows: u32,
) -> Result<TValue<Global>, AllocError>
    ensures { IfOk result (λ tree. view tree ≡ footer_tree (tree_of schema.now) (views groups.items) rows) }
{
    let elements = schema_elements(alloc, schema)?;
    let fields = vec![in alloc;
        integer(1, 1),
        list(2, elements),
        integer(3, i64::from(rows)),
        list(4, groups),
        text_field(alloc, 6, CREATED_BY)?,
    ]?;
    Ok(TValue::Struct(fields))
}

/// The nodes of a schema, depth first, behind the root (SchemaElement).
fn schema_elements<A: Allocator>(
    alloc: Global,
    schema: &Schema<A>,
) -> Result<Vec<TValue<Global>>, AllocError>
    ensures { IfOk result (λ elements. views elements.items ≡ schema_elements (tree_of schema.now)) }
{
    let root = root_element(alloc, schema.fields().len())?;
    let mut elements = vec![in alloc; root]?;
    put_fields(alloc, schema.fields(), &mut elements)?;
    Ok(elements)
}

/// The root of the schema, which has so many fields.
fn root_element(alloc: Global, count: usize) -> Result<TValue<Global>, AllocError>
    requires { count < 2 ^ 63 }
    ensures { IfOk result (λ tree. view tree ≡ root_element count) }
{
    let fields = vec![in alloc; text_field(alloc, 4, ROOT)?, integer(5, count as i64)]?;
    Ok(TValue::Struct(fields))
}

/// Puts the nodes of fields behind those before.
#[cycle(elements)]
fn put_fields<A: Allocator>(
    alloc: Global,
    fields: &[SchemaField<A>],
    elements: &mut Vec<TValue<Global>>,
) -> Result<(), AllocError>
    ensures { OnOk result (views elements.new.items
        ≡ views elements.old.items ++ field_elements (tree_fields (column_views fields.now))) }
{
    for field in fields {
        put_node(
            alloc,
            field.name.as_str(),
            field.nullable,
            &field.data_type,
            elements,
        )?;
    }
    Ok(())
}

/// Puts a node, and those inside it, behind those before.
#[cycle(elements)]
fn put_node<A: Allocator>(
    alloc: Global,
    name: &str,
    nullable: bool,
    node: &Node<A>,
    elements: &mut Vec<TValue<Global>>,
) -> Result<(), AllocError>
    ensures { OnOk result (views elements.new.items
        ≡ views elements.old.items ++ node_elements name.now nullable (type_view node.now)) }
{
    match node {
        Node::Struct(fields) => {
            elements.push(group_element(alloc, name, nullable, fields.len())?)?;
            put_fields(alloc, fields, elements)
        }
        Node::Leaf(primitive) => {
            if let Some(leaf_type) = LeafType::of(*primitive) {
                elements.push(leaf_element(alloc, name, nullable, leaf_type)?)?;
            }
            Ok(())
        }
        _ => Ok(()),
    }
}

/// A group of so many fields.
fn group_element(
    alloc: Global,
    name: &str,
    nullable: bool,
    count: usize,
) -> Result<TValue<Global>, AllocError>
    requires { count < 2 ^ 63 }
    ensures { IfOk result (λ tree. view tree ≡ group_element name.now nullable count) }
{
    let fields = vec![in alloc;
        integer(3, repetition(nullable)),
        text_field(alloc, 4, name.as_bytes())?,
        integer(5, count as i64),
    ]?;
    Ok(TValue::Struct(fields))
}

/// A leaf.
fn leaf_element(
    alloc: Global,
    name: &str,
    nullable: bool,
    leaf_type: LeafType,
) -> Result<TValue<Global>, AllocError>
    ensures { IfOk result (λ tree. view tree ≡ leaf_element name.now nullable leaf_type) }
{
    let mut fields = vec![in alloc;
        integer(1, leaf_type.physical_type().number()),
        integer(3, repetition(nullable)),
        text_field(alloc, 4, name.as_bytes())?,
    ]?;
    if let Some(number) = leaf_type.converted_type() {
        fields.push(integer(6, number))?;
    }
    Ok(TValue::Struct(fields))
}

/// What is said of the group of all rows, whose chunks have so many bytes together (RowGroup).
pub(crate) fn group_tree(
    alloc: Global,
    chunks: Vec<TValue<Global>>,
    size: usize,
    rows: u32,
) -> Result<TValue<Global>, AllocError>
    requires { size < 2 ^ 63 }
    ensures { IfOk result (λ tree. view tree ≡ group_tree (views chunks.items) size rows) }
{
    let fields = vec![in alloc;
        list(1, chunks),
        integer(2, size as i64),
        integer(3, i64::from(rows)),
    ]?;
    Ok(TValue::Struct(fields))
}

/// What is said of a leaf's chunk, which begins at a place and has so many bytes (ColumnChunk).
pub(crate) fn chunk_tree(
    alloc: Global,
    leaf: &FileLeaf,
    place: usize,
    size: usize,
    rows: u32,
) -> Result<TValue<Global>, AllocError>
    requires place { place < 2 ^ 63 }
    requires size { size < 2 ^ 63 }
    ensures { IfOk result (λ tree. view tree ≡ chunk_tree (leaf_view leaf.now) place size rows) }
{
    let fields = vec![in alloc;
        integer(2, place as i64),
        Field {
            id: 3,
            value: column_tree(alloc, leaf, place, size, rows)?
        },
    ]?;
    Ok(TValue::Struct(fields))
}

/// The same in detail (ColumnMetaData).
fn column_tree(
    alloc: Global,
    leaf: &FileLeaf,
    place: usize,
    size: usize,
    rows: u32,
) -> Result<TValue<Global>, AllocError>
    requires place { place < 2 ^ 63 }
    requires size { size < 2 ^ 63 }
    ensures { IfOk result (λ tree. view tree ≡ column_tree (leaf_view leaf.now) place size rows) }
{
    let encodings = vec![in alloc; TValue::Int(PLAIN), TValue::Int(RLE)]?;
    let fields = vec![in alloc;
        integer(1, leaf.leaf_type.physical_type().number()),
        list(2, encodings),
        list(3, path(alloc, &leaf.names)?),
        integer(4, UNCOMPRESSED),
        integer(5, i64::from(rows)),
        integer(6, size as i64),
        integer(7, size as i64),
        integer(9, place as i64),
    ]?;
    Ok(TValue::Struct(fields))
}

/// The names on the way to a leaf.
fn path(alloc: Global, names: &[String]) -> Result<Vec<TValue<Global>>, AllocError>
    ensures { IfOk result (λ path. views path.items ≡ map thrift.binary (map string_bytes names.now)) }
{
    let mut path = Vec::with_capacity(alloc, names.len())?;
    for name in names {
        path.push(text(alloc, name.as_bytes())?)?;
    }
    Ok(path)
}
