//! The columns of a row group.

ghost use Rattle.std.specs.Prelude.{◌≡◌, map, option_map, string_bytes};
ghost use Rattle.lake_bytes.specs.Reading.{IsReading};
ghost use Rattle.shred.specs.Parts.{cut_off};
ghost use Rattle.row_assembly.specs.Parts.{rests};
ghost use Rattle.parquet_footer.specs.Views.{chunk_view, chunk_views, group_view};
ghost use Rattle.parquet_pages.specs.Held.{AreLeft};
ghost use Rattle.parquet_pages.specs.Outcome.{GivesWhere};
ghost use Rattle.parquet_pages.specs.Pages.{highest};
ghost use Rattle.thrift_core.specs.View.{texts_view};
ghost use Rattle.parquet_schema.specs.Views.{leaf_view, leaf_views};
ghost use Rattle.parquet_file.specs.Internal.{are_counted, is_counted, levels_of, plain_chunk_named, AreAllLeft};
ghost use Rattle.parquet_file.specs.Reading.{chunk_named, column_at, columns_at, same_path};
ghost use Rattle.parquet_pages.specs.Views.{leaf_view as pages_view};
ghost use Rattle.parquet_file.specs.File.{leaf_of};

use parquet_footer::{ColumnChunk, FileError, FileFault, RowGroup};
use parquet_pages::{ColumnReader, Leaf};
use parquet_schema::FileLeaf;
use std::alloc::{Allocator, Global};

/// CompressionCodec UNCOMPRESSED.
pub(crate) const UNCOMPRESSED: i64 = 0;

/// Tests the columns of the leaves, in order, and gives the readers of what stands behind so many of their cells. P8
/// where there is no chunk of a leaf, P3 for its codec, P6 for its place, and then for its pages. The time is linear in
/// the bytes of the pages; the page of each leaf in which those cells end is read again.
pub(crate) fn tested_columns<'a, A: Allocator>(
    alloc: Global,
    bytes: &'a [u8],
    chunks: &[ColumnChunk<A>],
    leaves: &'a [FileLeaf],
    passed: u64,
) -> Result<Vec<ColumnReader<'a>>, FileError>
    ensures { GivesWhere (λ readers columns. AreAllLeft (leaf_views leaves.now) readers.items
        (rests passed (levels_of (leaf_views leaves.now)) columns)) result
        (columns_at bytes.now (chunk_views chunks.now) (leaf_views leaves.now)) }
{
    let mut readers = Vec::with_capacity(alloc, leaves.len())?;
    for leaf in leaves {
        readers.push(tested_column(alloc, bytes, chunks, leaf, passed)?)?;
    }
    Ok(readers)
}

#[tactic(auto, unfolding(crate::specs::Reading::column_at))]
fn tested_column<'a, A: Allocator>(
    alloc: Global,
    bytes: &'a [u8],
    chunks: &[ColumnChunk<A>],
    leaf: &'a FileLeaf,
    passed: u64,
) -> Result<ColumnReader<'a>, FileError>
    ensures { GivesWhere (λ reader column. AreLeft (leaf_of (leaf_view leaf.now)) reader
        (cut_off passed (highest (leaf_of (leaf_view leaf.now))) column)) result
        (column_at bytes.now (chunk_views chunks.now) (leaf_view leaf.now)) }
{
    let chunk = plain_chunk(chunks, leaf)?;
    ColumnReader::tested(
        alloc,
        pages_of(leaf),
        bytes,
        chunk.data_page_offset,
        chunk.num_values,
        passed,
    )
}

/// How the pages of a leaf are read.
fn pages_of(leaf: &FileLeaf) -> Leaf
    ensures { pages_view result ≡ leaf_of (leaf_view leaf.now) }
{
    Leaf {
        leaf_type: leaf.leaf_type,
        nullable: &leaf.nullable,
    }
}

/// The chunk of a leaf, which isn't compressed.
fn plain_chunk<'a, A: Allocator>(
    chunks: &'a [ColumnChunk<A>],
    leaf: &FileLeaf,
) -> Result<&'a ColumnChunk<A>, FileFault>
    ensures { IsReading (λ chunk. chunk_view chunk.now) result
        (plain_chunk_named (leaf_view leaf.now).names (chunk_views chunks.now)) }
{
    let Some(chunk) = chunk_named(chunks, &leaf.names) else {
        return Err(FileFault::SchemaMismatch);
    };
    if chunk.codec != UNCOMPRESSED {
        return Err(FileFault::Codec { n: chunk.codec });
    }
    Ok(chunk)
}

/// The first chunk with this path.
pub fn chunk_named<'a, A: Allocator>(
    chunks: &'a [ColumnChunk<A>],
    path: &[String],
) -> Option<&'a ColumnChunk<A>>
    ensures { option_map (λ chunk. chunk_view chunk.now) result
        ≡ chunk_named (map string_bytes path.now) (chunk_views chunks.now) }
{
    chunks
        .iter()
        .find(|chunk| same_path(&chunk.path_in_schema, path))
}

/// Whether two paths are the same.
fn same_path<A: Allocator>(names: &[Vec<u8, A>], path: &[String]) -> bool
    ensures { result ≡ same_path (texts_view names.now) (map string_bytes path.now) }
{
    names.len() == path.len()
        && names
            .iter()
            .zip(path)
            .all(|(name, other)| name.as_slice() == other.as_bytes())
}

/// Whether there is a chunk of each leaf, and each has as many values as the group has rows.
pub(crate) fn are_counted<A: Allocator>(group: &RowGroup<A>, leaves: &[FileLeaf]) -> bool
    ensures { result ≡ are_counted (group_view group.now) (leaf_views leaves.now) }
{
    leaves.iter().all(|leaf| is_counted(group, leaf))
}

fn is_counted<A: Allocator>(group: &RowGroup<A>, leaf: &FileLeaf) -> bool
    ensures { result ≡ is_counted (group_view group.now) (leaf_view leaf.now) }
{
    match chunk_named(&group.columns, &leaf.names) {
        Some(chunk) => chunk.num_values == group.num_rows,
        None => false,
    }
}
