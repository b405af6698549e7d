//! A footer's list, read as a tree.

ghost use Rattle.std.specs.Prelude.{◌<◌, ◌-◌};
ghost use Rattle.parquet_schema.specs.Outcome.{Fits, IsTold, Takes};
ghost use Rattle.parquet_schema.specs.Reading.{optional_of, node_at, field_at, fields_at, file_fields};
ghost use Rattle.parquet_footer.specs.Views.{element_view, element_views};
ghost use Rattle.parquet_schema.specs.Views.{node_view, field_view, field_views};

use crate::tree::{FileField, FileNode};
use parquet_footer::{FileError, FileFault, SchemaElement};
use std::alloc::{Allocator, Global};

/// The most levels of fields that stand below one another, as in a table's types.
const MAX_DEPTH: u32 = 16;

/// The fields of a file. P8 where the list is empty, its counts make no tree, it nests too deep, or a field is neither
/// required nor optional. The time is linear in the list.
#[tactic(auto, unfolding(crate::specs::Reading::file_fields))]
pub(crate) fn file_fields<A: Allocator>(
    alloc: Global,
    elements: &[SchemaElement<A>],
) -> Result<Vec<FileField>, FileError>
    ensures { Fits (λ fields. field_views fields.items) result (file_fields (element_views elements.now)) }
{
    let Some((root, others)) = elements.split_first() else {
        return Err(FileFault::SchemaMismatch.into());
    };
    let mut rest = others;
    let fields = read_fields(alloc, MAX_DEPTH, root.num_children, &mut rest)?;
    if rest.is_empty() {
        Ok(fields)
    } else {
        Err(FileFault::SchemaMismatch.into())
    }
}

/// So many fields in front of the rest, which then stands behind them.
#[cycle(reading)]
#[tactic(auto, unfolding(crate::specs::Reading::fields_at))]
fn read_fields<A: Allocator>(
    alloc: Global,
    deep: u32,
    count: u64,
    rest: &mut &[SchemaElement<A>],
) -> Result<Vec<FileField>, FileError>
    ensures { Takes (λ fields. field_views fields.items) result
        (fields_at deep count (element_views rest.old.now)) (element_views rest.new.now) }
{
    if deep == 0 {
        return Err(FileFault::SchemaMismatch.into());
    }
    let mut fields = Vec::new(alloc);
    for _field in 0..count {
        fields.push(read_field(alloc, deep, rest)?)?;
    }
    Ok(fields)
}

/// The field in front of the rest.
#[cycle(reading)]
fn read_field<A: Allocator>(
    alloc: Global,
    deep: u32,
    rest: &mut &[SchemaElement<A>],
) -> Result<FileField, FileError>
    requires { 0 < deep }
    ensures { Takes field_view result
        (field_at (fields_at (deep - 1)) (element_views rest.old.now)) (element_views rest.new.now) }
{
    let Some((element, others)) = rest.split_first() else {
        return Err(FileFault::SchemaMismatch.into());
    };
    let optional = optional_of(element.repetition_type)?;
    *rest = others;
    let node = read_node(alloc, deep, element, rest)?;
    Ok(FileField {
        name: Vec::from_slice(alloc, &element.name)?,
        optional,
        node,
    })
}

/// The node of an element, whose children stand in front of the rest.
#[cycle(reading)]
fn read_node<A: Allocator>(
    alloc: Global,
    deep: u32,
    element: &SchemaElement<A>,
    rest: &mut &[SchemaElement<A>],
) -> Result<FileNode, FileError>
    requires { 0 < deep }
    ensures { Takes node_view result
        (node_at (fields_at (deep - 1)) (element_view element.now) (element_views rest.old.now))
        (element_views rest.new.now) }
{
    if element.num_children > 0 {
        let fields = read_fields(alloc, deep - 1, element.num_children, rest)?;
        return Ok(FileNode::Group(fields));
    }
    match element.physical_type {
        Some(number) => Ok(FileNode::Leaf(number)),
        None => Err(FileFault::SchemaMismatch.into()),
    }
}

/// Whether a field of this repetition may be null (Apache Parquet, FieldRepetitionType).
fn optional_of(repetition: Option<i64>) -> Result<bool, FileFault>
    ensures { IsTold (λ x. x) result (optional_of repetition) }
{
    match repetition {
        Some(0) => Ok(false),
        Some(1) => Ok(true),
        _ => Err(FileFault::SchemaMismatch),
    }
}
