//! The pages of a column chunk.

ghost use Rattle.std.specs.Prelude.{◌≡◌, ◌≤◌, ◌<◌, length, IfOk, ⊤};
ghost use Rattle.lake_bytes.specs.Reading.{IsReading};
ghost use Rattle.shred.specs.Columns as columns;
ghost use Rattle.parquet_pages.specs.Held.{IsMark};
ghost use Rattle.page_cells.specs.Outcome.{FindsWhere};
ghost use Rattle.parquet_pages.specs.Outcome.{GivesWhere};
ghost use Rattle.parquet_pages.specs.Pages.{ChunkHolds, Suits};
ghost use Rattle.parquet_pages.specs.Reading.{chunk_at, first_place, pages_at};
ghost use Rattle.parquet_pages.specs.Views.{leaf_view};

use crate::leaf::Leaf;
use crate::pages::read_page;
use parquet_footer::{FileError, FileFault};
use std::alloc::Global;

/// Tests the pages of a chunk, which states where its first page begins and how many values it has, nulls among them,
/// and keeps nothing of them; `bytes` are the file's before its footer (Apache Parquet, "Column Chunks"). Of a chunk
/// without values no page is read.
///
/// P6 where the first page begins before byte 4; then page by page as [`read_page`] has it. The time is linear in the
/// bytes of the pages, however many values they claim; nothing is kept of their levels and values, and memory is taken
/// for one page's header at a time.
pub fn test_chunk(
    alloc: Global,
    leaf: &Leaf,
    bytes: &[u8],
    stated: i64,
    num_values: u64,
) -> Result<(), FileError>
    // The chunk's pages hold a column of so many levels, which suits the leaf.
    ensures found { IfOk result (λ _. (c : columns.Column) × ChunkHolds (leaf_view leaf.now) bytes.now stated c × Suits
        (leaf_view leaf.now) c
        × (num_values ≡ length c.levels)) }
    // Where the pages hold one, there is no fault.
    ensures only { (c : columns.Column) → ChunkHolds (leaf_view leaf.now) bytes.now stated c
        → Suits (leaf_view leaf.now) c
        → num_values ≡ length c.levels → FindsWhere (λ _. ⊤) result }
    // Which fault it is: the first one in the order of the tests.
    ensures exact { GivesWhere (λ x c. ⊤) result (chunk_at (leaf_view leaf.now) bytes.now stated num_values) }
{
    chunk_passes(alloc, leaf, bytes, stated, num_values)
}

/// Tests a chunk, and keeps no place.
fn chunk_passes(
    alloc: Global,
    leaf: &Leaf,
    bytes: &[u8],
    stated: i64,
    num_values: u64,
) -> Result<(), FileError>
    ensures exact { GivesWhere (λ x c. ⊤) result (chunk_at (leaf_view leaf.now) bytes.now stated num_values) }
{
    mark_in_chunk(alloc, leaf, bytes, stated, num_values, 0)?;
    Ok(())
}

/// Where a page of a chunk begins, and how many values it and those behind it have.
#[derive(Clone, Copy)]
pub(crate) struct Mark {
    pub(crate) place: usize,
    pub(crate) left: u64,
}

/// Tests a chunk, in the order of the tests, and marks the last of its pages that at most so many cells stand before.
#[tactic(auto, unfolding(crate::specs::Reading::chunk_at))]
pub(crate) fn mark_in_chunk(
    alloc: Global,
    leaf: &Leaf,
    bytes: &[u8],
    stated: i64,
    num_values: u64,
    before: u64,
) -> Result<Mark, FileError>
    ensures { GivesWhere (IsMark (leaf_view leaf.now) bytes.now num_values before) result
        (chunk_at (leaf_view leaf.now) bytes.now stated num_values) }
{
    if num_values == 0 {
        return Ok(Mark { place: 0, left: 0 });
    }
    let place = first_place(stated)?;
    test_pages(alloc, leaf, bytes, place, num_values, before)
}

/// The place of a chunk's first page, which isn't before byte 4.
#[tactic(auto, unfolding(crate::specs::Reading::first_place))]
pub fn first_place(stated: i64) -> Result<usize, FileFault>
    ensures { IsReading (λ place. place) result (first_place stated) }
{
    if stated < 4 {
        return Err(FileFault::BadOffset);
    }
    Ok(stated as usize)
}

/// The next mark, where no more cells stand before it than may, and else the one that stands.
fn later_mark(mark: Mark, next: Mark, passed: u64, before: u64) -> Mark
    ensures later { passed ≤ before → result ≡ next }
    ensures same { before < passed → result ≡ mark }
{
    if passed <= before { next } else { mark }
}

/// Tests the pages from a place on, up to so many values, and marks the last one that at most so many cells stand
/// before.
fn test_pages(
    alloc: Global,
    leaf: &Leaf,
    bytes: &[u8],
    place: usize,
    count: u64,
    before: u64,
) -> Result<Mark, FileError>
    ensures { GivesWhere (IsMark (leaf_view leaf.now) bytes.now count before) result
        (pages_at (length bytes.now) (leaf_view leaf.now) bytes.now place count) }
{
    let mut place = place;
    let mut left = count;
    let mut mark = Mark { place, left };
    // Each page takes a byte at least.
    for _page in 0..bytes.len() {
        if left == 0 {
            return Ok(mark);
        }
        let passed = count.saturating_sub(left);
        mark = later_mark(mark, Mark { place, left }, passed, before);
        let page = read_page(alloc, leaf, bytes, place, left)?;
        left -= page.num_values();
        place = page.next();
    }
    if left > 0 {
        return Err(FileFault::BadOffset.into());
    }
    Ok(mark)
}
