//! A footer's bytes, read as what they say of the file.

ghost use Rattle.std.specs.Prelude.{◌≡◌};
ghost use Rattle.lake_bytes.specs.Reading.{IsReading};
ghost use Rattle.thrift_core.specs.Fields.{each, TreeGives};
ghost use Rattle.thrift_core.specs.View.{view, views};
ghost use Rattle.parquet_footer.specs.Metadata.{root_of, node_of, physical_type_of, schema_of, chunk_of, group_of, metadata_of};
ghost use Rattle.parquet_footer.specs.Outcome.{GivesFooter};
ghost use Rattle.parquet_footer.specs.Reading.{limited_metadata_of, metadata_at, within_limits, claims_within_limit};
ghost use Rattle.parquet_footer.specs.declared.fault.FileFault.TheVariants.{BadFooter};
ghost use Rattle.parquet_footer.specs.Views.{element_view, element_views, chunk_view, chunk_views, group_view, group_views, footer_view};

use crate::fault::{FileFault, FooterError};
use crate::footer::{ColumnChunk, Footer, RowGroup, SchemaElement};
use lake_bytes::Cursor;
use std::alloc::Allocator;
use thrift_core::fields::{
    count, integer, natural, optional_integer, structs, structure, text, texts,
};
use thrift_core::{ReadError, TValue, ThriftFault, read_struct};

/// The most rows of a file, and of each of its groups.
pub const MAX_FILE_ROWS: u64 = 4_194_304;

/// What the footer's bytes say. P2 with what is wrong with them, and P9 for a claim of more than
/// [`MAX_FILE_ROWS`].
#[tactic(auto, unfolding(crate::specs::Reading::metadata_at))]
pub(crate) fn read_metadata<A: Allocator + Copy>(
    alloc: A,
    footer: &[u8],
) -> Result<Footer<A>, FooterError>
    ensures exact { GivesFooter footer_view result (metadata_at footer.now) }
{
    let mut cursor = Cursor::new(footer);
    match read_struct(alloc, &mut cursor) {
        Ok(tree) => limited_metadata(alloc, &tree),
        Err(error) => Err(in_footer(error)),
    }
}

/// What a footer's tree says, within the limits.
fn limited_metadata<A: Allocator + Copy>(
    alloc: A,
    tree: &TValue<A>,
) -> Result<Footer<A>, FooterError>
    ensures { GivesFooter footer_view result (limited_metadata_of (view tree.now)) }
{
    let metadata = metadata(alloc, tree).map_err(in_footer)?;
    Ok(within_limits(metadata)?)
}

/// A fault of a footer's tree.
fn in_footer(error: ReadError) -> FooterError
    ensures no_room { error ≡ ReadError.Memory → result ≡ FooterError.NoRoom }
    ensures fault { (fault : ThriftFault) → error ≡ ReadError.Fault fault → result ≡ FooterError.Fault (BadFooter fault) }
{
    match error {
        ReadError::Memory => FooterError::NoRoom,
        ReadError::Fault(fault) => FooterError::Fault(FileFault::BadFooter { fault }),
    }
}

/// The same footer, where it and its groups claim no more rows than a file may have.
#[tactic(auto, unfolding(crate::specs::Reading::within_limits))]
fn within_limits<A: Allocator>(footer: Footer<A>) -> Result<Footer<A>, FileFault>
    ensures { IsReading footer_view result (within_limits (footer_view footer)) }
{
    if footer.num_rows > MAX_FILE_ROWS || !claims_within_limit(&footer.row_groups) {
        return Err(FileFault::TooLarge);
    }
    Ok(footer)
}

/// No group claims more rows than a file may have.
fn claims_within_limit<A: Allocator>(groups: &[RowGroup<A>]) -> bool
    ensures { result ≡ claims_within_limit (group_views groups.now) }
{
    groups.iter().all(|group| group.num_rows <= MAX_FILE_ROWS)
}

/// What a tree says of its file.
#[tactic(auto, unfolding(crate::specs::Metadata::metadata_of))]
fn metadata<A: Allocator + Copy>(alloc: A, tree: &TValue<A>) -> Result<Footer<A>, ReadError>
    ensures { TreeGives footer_view result (metadata_of (view tree.now)) }
{
    let schema = schema(alloc, structs(tree, 2)?)?;
    let num_rows = count(tree, 3)?;
    let row_groups = groups(alloc, structs(tree, 4)?)?;
    Ok(Footer {
        schema,
        num_rows,
        row_groups,
    })
}

/// The nodes of the schema, of which the first is the root.
fn schema<A: Allocator + Copy>(
    alloc: A,
    nodes: &[TValue<A>],
) -> Result<Vec<SchemaElement<A>, A>, ReadError>
    ensures { TreeGives (λ elements. element_views elements.items) result (schema_of (views nodes.now)) }
{
    let mut elements = Vec::new(alloc);
    let Some((first, others)) = nodes.split_first() else {
        return Ok(elements);
    };
    elements.push(root(alloc, first)?)?;
    for other in others {
        elements.push(node(alloc, other)?)?;
    }
    Ok(elements)
}

/// The root: a name and a count of children.
#[tactic(auto, unfolding(crate::specs::Metadata::root_of))]
fn root<A: Allocator + Copy>(alloc: A, tree: &TValue<A>) -> Result<SchemaElement<A>, ReadError>
    ensures { TreeGives element_view result (root_of (view tree.now)) }
{
    let name = text(tree, 4)?;
    let num_children = count(tree, 5)?;
    Ok(SchemaElement {
        physical_type: optional_integer(tree, 1),
        repetition_type: optional_integer(tree, 3),
        name: Vec::from_slice(alloc, name)?,
        num_children,
    })
}

/// Another node: a name and a repetition, and for a leaf a physical type.
#[tactic(auto, unfolding(crate::specs::Metadata::node_of))]
fn node<A: Allocator + Copy>(alloc: A, tree: &TValue<A>) -> Result<SchemaElement<A>, ReadError>
    ensures { TreeGives element_view result (node_of (view tree.now)) }
{
    let num_children = optional_integer(tree, 5).unwrap_or(0);
    let physical_type = physical_type(tree, num_children)?;
    let repetition_type = integer(tree, 3)?;
    let name = text(tree, 4)?;
    Ok(SchemaElement {
        physical_type,
        repetition_type: Some(repetition_type),
        num_children: natural(num_children)?,
        name: Vec::from_slice(alloc, name)?,
    })
}

/// The physical type of a node with so many children. A leaf has to have one.
#[tactic(auto, unfolding(crate::specs::Metadata::physical_type_of))]
fn physical_type<A: Allocator>(
    tree: &TValue<A>,
    num_children: i64,
) -> Result<Option<i64>, ThriftFault>
    ensures { result ≡ physical_type_of num_children (view tree.now) }
{
    if num_children == 0 {
        return Ok(Some(integer(tree, 1)?));
    }
    Ok(optional_integer(tree, 1))
}

/// The row groups, in order.
fn groups<A: Allocator + Copy>(
    alloc: A,
    members: &[TValue<A>],
) -> Result<Vec<RowGroup<A>, A>, ReadError>
    ensures { TreeGives (λ groups. group_views groups.items) result (each group_of (views members.now)) }
{
    let mut groups = Vec::new(alloc);
    for member in members {
        groups.push(group(alloc, member)?)?;
    }
    Ok(groups)
}

#[tactic(auto, unfolding(crate::specs::Metadata::group_of))]
fn group<A: Allocator + Copy>(alloc: A, tree: &TValue<A>) -> Result<RowGroup<A>, ReadError>
    ensures { TreeGives group_view result (group_of (view tree.now)) }
{
    let columns = chunks(alloc, structs(tree, 1)?)?;
    let num_rows = count(tree, 3)?;
    Ok(RowGroup { columns, num_rows })
}

/// The chunks of a group, in order.
fn chunks<A: Allocator + Copy>(
    alloc: A,
    members: &[TValue<A>],
) -> Result<Vec<ColumnChunk<A>, A>, ReadError>
    ensures { TreeGives (λ chunks. chunk_views chunks.items) result (each chunk_of (views members.now)) }
{
    let mut chunks = Vec::new(alloc);
    for member in members {
        chunks.push(chunk(alloc, member)?)?;
    }
    Ok(chunks)
}

#[tactic(auto, unfolding(crate::specs::Metadata::chunk_of))]
fn chunk<A: Allocator + Copy>(alloc: A, tree: &TValue<A>) -> Result<ColumnChunk<A>, ReadError>
    ensures { TreeGives chunk_view result (chunk_of (view tree.now)) }
{
    let column = structure(tree, 3)?;
    let path_in_schema = texts(alloc, column, 3)?;
    let codec = integer(column, 4)?;
    let num_values = count(column, 5)?;
    let data_page_offset = integer(column, 9)?;
    Ok(ColumnChunk {
        path_in_schema,
        codec,
        num_values,
        data_page_offset,
    })
}
