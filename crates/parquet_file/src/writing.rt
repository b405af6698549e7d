//! The file of rows, written.

ghost use Rattle.std.specs.Prelude.{◌≡◌, ◌<◌, ◌≤◌, ◌++◌, ◌^◌, List, length, map, All, None, true, is_some, IfOk, OnOk};
ghost use Rattle.std.specs.List.{AllByRecursion};
ghost use Rattle.std.specs.Int.{w32, to_le_bytes};
ghost use Rattle.thrift_core.specs.View.{view, views};
ghost use Rattle.row_core.specs.Conforms.{Conforms};
ghost use Rattle.row_core.specs.Rows.{Row};
ghost use Rattle.row_core.specs.Unsupported.{unsupported};
ghost use Rattle.row_core.specs.Views.{row_views};
ghost use Rattle.schema_tree.specs.Schema.{tree_of};
ghost use Rattle.schema_tree.specs.Tree.{fields_of as tree_fields};
ghost use Rattle.schema_tree.specs.View.{view as type_view, field_views as column_views};
ghost use Rattle.shred.specs.Columns.{column};
ghost use Rattle.shred.specs.Views.{way_view, way_views};
ghost use Rattle.shred.specs.Ways.{highest as highest_level};
ghost use Rattle.parquet_footer.specs.Frame.{magic};
ghost use Rattle.parquet_footer.specs.Outcome.{FileGives};
ghost use Rattle.parquet_schema.specs.Views.{leaf_view, leaf_views};
ghost use Rattle.parquet_file.specs.File.{IsFile, KeepsLimits};
ghost use Rattle.page_writing.specs.Outcome.{Writes};
ghost use Rattle.page_writing.specs.Writing.{chunk_written};
ghost use Rattle.parquet_file.specs.Internal.{column_along, columns_along, levels_of};
ghost use Rattle.parquet_file.specs.Outcome.{Puts};
ghost use Rattle.parquet_file.specs.Writing.{are_short_named, chunk_from, chunks_from, group_written, groups_written, is_short_named, written_file};

use crate::forms::FOOTER;
use crate::trees::{chunk_tree, footer_tree, group_tree};
use lake_bytes::write_u32_le;
use page_writing::{MAX_PAGE_ROWS, write_page};
use parquet_footer::{FileError, FileFault, MAGIC, MAX_FILE_ROWS, MAX_FILE_SIZE};
use parquet_pages::LeafType;
use parquet_schema::{FileLeaf, leaves_of_schema};
use row_core::Value;
use schema_tree::{Field, Node, Schema};
use shred::{Shape, Step, column_of, ways_of};
use std::alloc::{AllocError, Allocator, Global};
use thrift_core::{TValue, write_struct};

/// The file of these rows, for a table of this schema whose columns all have values (Apache Parquet, File Format).
///
/// All rows stand in one row group, the chunks of its leaves one behind the other in the table's order, in pages of
/// `page_writing::MAX_PAGE_ROWS` rows; without rows there is no row group. P9 for more than 4,194,304 rows, for a name
/// of over 64 MiB, and where a page's body, the chunks so far or the file would have over 64 MiB.
///
/// The time is linear in rows times leaves and in the bytes that are written. Beside the file and its footer the memory
/// holds the column of one page, which borrows the rows' values.
pub fn write_file<A: Allocator>(
    alloc: Global,
    schema: &Schema<A>,
    rows: &[Value],
) -> Result<Vec<u8>, FileError>
    requires supported { unsupported (tree_of schema.now) ≡ None }
    requires conform { All (Conforms (tree_of schema.now)) (row_views rows.now) }
    // The bytes are a file of these rows, within the limits of reading.
    ensures is_file { IfOk result (λ bytes. IsFile bytes.items (tree_of schema.now) (row_views rows.now)
        × KeepsLimits bytes.items (row_views rows.now)) }
    // They are a file of no other rows.
    ensures no_other { IfOk result (λ bytes. (others : List Row) → IsFile bytes.items (tree_of schema.now) others
        → others ≡ row_views rows.now) }
    // Which bytes they are, and when there are none.
    ensures exact { FileGives (λ bytes. bytes.items) result (written_file (tree_of schema.now) (row_views rows.now)) }
{
    file_of(alloc, schema, rows)
}

/// The file, within the limits.
#[tactic(auto, unfolding(crate::specs::Writing::written_file))]
fn file_of<A: Allocator>(
    alloc: Global,
    schema: &Schema<A>,
    rows: &[Value],
) -> Result<Vec<u8>, FileError>
    requires supported { unsupported (tree_of schema.now) ≡ None }
    requires conform { All (Conforms (tree_of schema.now)) (row_views rows.now) }
    ensures exact { FileGives (λ bytes. bytes.items) result (written_file (tree_of schema.now) (row_views rows.now)) }
{
    if rows.len() as u64 > MAX_FILE_ROWS || !are_short_named(schema.fields()) {
        return Err(FileFault::TooLarge.into());
    }
    let count = rows.len() as u32;
    let mut bytes = Vec::from_slice(alloc, MAGIC)?;
    let groups = write_groups(alloc, &mut bytes, schema, rows, count)?;
    let tree = footer_tree(alloc, schema, groups, count)?;
    let footer = write_struct(alloc, &tree, &FOOTER)?;
    if footer.len() > MAX_FILE_SIZE || bytes.len() + footer.len() + 8 > MAX_FILE_SIZE {
        return Err(FileFault::TooLarge.into());
    }
    write_footer(&mut bytes, &footer)?;
    Ok(bytes)
}

/// No name is longer than a file may be.
#[cycle(names)]
fn are_short_named<A: Allocator>(fields: &[Field<A>]) -> bool
    ensures { result ≡ are_short_named (tree_fields (column_views fields.now)) }
{
    for field in fields {
        if field.name.len() > MAX_FILE_SIZE || !is_short_named(&field.data_type) {
            return false;
        }
    }
    true
}

#[cycle(names)]
fn is_short_named<A: Allocator>(node: &Node<A>) -> bool
    ensures { result ≡ is_short_named (type_view node.now) }
{
    match node {
        Node::Struct(fields) => are_short_named(fields),
        _ => true,
    }
}

/// Writes the row group of all rows behind the magic bytes, and gives what is said of it; none without rows.
fn write_groups<A: Allocator>(
    alloc: Global,
    out: &mut Vec<u8>,
    schema: &Schema<A>,
    rows: &[Value],
    count: u32,
) -> Result<Vec<TValue<Global>>, FileError>
    requires supported { unsupported (tree_of schema.now) ≡ None }
    requires conform { All (Conforms (tree_of schema.now)) (row_views rows.now) }
    requires count { count ≡ length rows.now }
    requires behind { out.now.items ≡ magic }
    ensures written { Puts (λ groups. views groups.items) (groups_written (tree_of schema.now) (row_views rows.now)) out.old.items result
        out.new.items }
    ensures size { OnOk result (length out.new.items ≤ 67108864) }
{
    let mut groups = Vec::new(alloc);
    if !rows.is_empty() {
        groups.push(write_group(alloc, out, schema, rows, count)?)?;
    }
    Ok(groups)
}

/// Writes the row group of all rows behind the magic bytes, and gives what is said of it.
#[tactic(auto, unfolding(crate::specs::Writing::group_written))]
fn write_group<A: Allocator>(
    alloc: Global,
    out: &mut Vec<u8>,
    schema: &Schema<A>,
    rows: &[Value],
    count: u32,
) -> Result<TValue<Global>, FileError>
    requires supported { unsupported (tree_of schema.now) ≡ None }
    requires conform { All (Conforms (tree_of schema.now)) (row_views rows.now) }
    requires count { count ≡ length rows.now }
    requires behind { out.now.items ≡ magic }
    ensures written { Puts view (group_written (tree_of schema.now) (row_views rows.now)) out.old.items result out.new.items }
    ensures size { OnOk result (length out.new.items ≤ 67108864) }
{
    let shape = Shape::of_schema(alloc, schema)?;
    let leaves = leaves_of_schema(alloc, schema, &shape)?;
    let ways = ways_of(alloc, &shape)?;
    let chunks = write_chunks(alloc, out, &leaves, &ways, rows, count)?;
    Ok(group_tree(alloc, chunks, out.len() - MAGIC.len(), count)?)
}

/// Writes the chunks of the leaves behind what was there, and gives what is said of them. Each leaf stands at the end
/// of its way.
fn write_chunks(
    alloc: Global,
    out: &mut Vec<u8>,
    leaves: &[FileLeaf],
    ways: &[Vec<Step>],
    rows: &[Value],
    count: u32,
) -> Result<Vec<TValue<Global>>, FileError>
    requires size { length out.now.items ≤ 67108864 }
    requires levels { levels_of (leaf_views leaves.now) ≡ map highest_level (way_views ways.now) }
    requires found { AllByRecursion (λ way. is_some (column way (row_views rows.now)) ≡ true) (way_views ways.now) }
    ensures written { Puts (λ chunks. views chunks.items)
        (chunks_from (length out.old.items) count (leaf_views leaves.now)
        (columns_along (way_views ways.now) (row_views rows.now))) out.old.items result out.new.items }
    ensures size { OnOk result (length out.new.items ≤ 67108864) }
{
    let mut chunks = Vec::with_capacity(alloc, leaves.len())?;
    for (leaf, way) in leaves.iter().zip(ways) {
        chunks.push(write_leaf(alloc, out, leaf, way, rows, count)?)?;
    }
    Ok(chunks)
}

/// Writes the chunk of a leaf behind what was there, and gives what is said of it.
#[tactic(auto, unfolding(crate::specs::Writing::chunk_from))]
fn write_leaf(
    alloc: Global,
    out: &mut Vec<u8>,
    leaf: &FileLeaf,
    way: &[Step],
    rows: &[Value],
    count: u32,
) -> Result<TValue<Global>, FileError>
    requires size { length out.now.items ≤ 67108864 }
    requires level { length (leaf_view leaf.now).nullable ≡ highest_level (way_view way.now) }
    requires found { is_some (column (way_view way.now) (row_views rows.now)) ≡ true }
    ensures written { Puts view
        (chunk_from (length out.old.items) count (leaf_view leaf.now)
        (column_along (way_view way.now) (row_views rows.now))) out.old.items result out.new.items }
    ensures size { OnOk result (length out.new.items ≤ 67108864) }
{
    let place = out.len();
    write_pages(
        alloc,
        out,
        leaf.leaf_type,
        leaf.nullable.len() as u64,
        way,
        rows,
    )?;
    if out.len() > MAX_FILE_SIZE {
        return Err(FileFault::TooLarge.into());
    }
    Ok(chunk_tree(alloc, leaf, place, out.len() - place, count)?)
}

/// Writes the pages of the leaf at the end of a way behind what was there: pages of [`MAX_PAGE_ROWS`] rows, the last
/// with the rest. The highest level is the way's.
fn write_pages(
    alloc: Global,
    out: &mut Vec<u8>,
    leaf_type: LeafType,
    highest: u64,
    way: &[Step],
    rows: &[Value],
) -> Result<(), FileError>
    requires level { highest ≡ highest_level (way_view way.now) }
    requires found { is_some (column (way_view way.now) (row_views rows.now)) ≡ true }
    ensures { Writes (chunk_written leaf_type highest (column_along (way_view way.now) (row_views rows.now)))
        out.old.items result out.new.items }
{
    let mut rows = rows;
    while !rows.is_empty() {
        let (page, behind) = rows.split_at(rows.len().min(MAX_PAGE_ROWS));
        match column_of(alloc, way, page)? {
            Some(column) => write_page(alloc, out, leaf_type, highest, &column)?,
            None => unreachable!(),
        }
        rows = behind;
    }
    Ok(())
}

/// The footer, its length, and the magic bytes.
fn write_footer(out: &mut Vec<u8>, footer: &[u8]) -> Result<(), AllocError>
    requires { length footer.now < 2 ^ 32 }
    ensures { OnOk result (out.new.items
        ≡ out.old.items ++ (footer.now ++ (to_le_bytes w32 (length footer.now) ++ magic))) }
{
    out.extend_from_slice(footer)?;
    write_u32_le(out, footer.len() as u32)?;
    out.extend_from_slice(MAGIC)
}
