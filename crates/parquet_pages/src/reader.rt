//! A column chunk read page by page: its cells are taken from the front of one page at a time, and read from the page's
//! bytes as they are taken.

ghost use Rattle.std.specs.Prelude.{◌≡◌, ℕ, ◌-◌, ◌≤◌, length, [], Ok, Err, IfOk, IsOk, OnErr};
ghost use Rattle.shred.specs.Columns as columns;
ghost use Rattle.shred.specs.Parts.{cut_off};
ghost use Rattle.parquet_footer.specs.declared.fault.FileFault.{FileFault};
ghost use Rattle.parquet_pages.specs.Held.{at_hand, AreLeft, Fills, HoldsPage};
ghost use Rattle.page_cells.specs.Outcome.{FindsWhere};
ghost use Rattle.parquet_pages.specs.Outcome.{GivesWhere};
ghost use Rattle.parquet_pages.specs.Pages as pages;
ghost use Rattle.parquet_pages.specs.Pages.{highest};
ghost use Rattle.parquet_pages.specs.Parts.{IsPartOf, cut_cells};
ghost use Rattle.parquet_pages.specs.Reading.{chunk_at, page_at};
ghost use Rattle.parquet_pages.specs.Views.{leaf_view};

use crate::chunk::{first_place, mark_in_chunk};
use crate::leaf::Leaf;
use crate::pages::{add_levels, read_page};
use lake_bytes::HybridReader;
use page_cells::{PlainReader, cut_runs, present};
use parquet_footer::{FileError, FileFault};
use row_core::Value;
use shred::{Column, ColumnPart};
use std::alloc::Global;

/// What is left of a column chunk (Apache Parquet, "Column Chunks"): the cells of the page at hand that weren't taken,
/// and the pages behind it, which weren't looked at. It keeps no cell: levels and values are read from the file's bytes
/// as they are taken.
#[derive(Drop)]
pub struct ColumnReader<'a> {
    leaf: Leaf<'a>,
    /// The file's bytes before its footer.
    bytes: &'a [u8],
    /// Where the next page begins.
    place: usize,
    /// How many values it and those behind it have.
    left: u64,
    /// The levels of the page at hand that weren't taken.
    levels: HybridReader<'a>,
    /// How many they are.
    count: u64,
    /// Its values that weren't taken.
    values: PlainReader<'a>,
}

impl<'a> ColumnReader<'a> {
    /// The reader of a chunk, which states where its first page begins and how many values it has, nulls among them;
    /// `bytes` are the file's before its footer. No page is looked at. A fault, P6 where the first page begins before
    /// byte 4, is the chunk's first one.
    #[tactic(auto, unfolding(crate::specs::Reading::chunk_at))]
    pub fn open(
        leaf: Leaf<'a>,
        bytes: &'a [u8],
        stated: i64,
        num_values: u64,
    ) -> Result<ColumnReader<'a>, FileFault>
        // The column that the chunk's pages hold is left.
        ensures left { IfOk result (λ reader. (c : columns.Column)
            → chunk_at (leaf_view leaf.entry) bytes.now stated num_values ≡ Ok c
            → AreLeft (leaf_view leaf.entry) reader c) }
        // A fault is the first one of the chunk.
        ensures refused { (fault : FileFault) → result ≡ Err fault
            → chunk_at (leaf_view leaf.entry) bytes.now stated num_values ≡ Err fault }
    {
        let place = if num_values == 0 {
            0
        } else {
            first_place(stated)?
        };
        Ok(ColumnReader {
            leaf,
            bytes,
            place,
            left: num_values,
            levels: HybridReader::equal(0, 0),
            count: 0,
            values: PlainReader::none(leaf.leaf_type),
        })
    }

    /// Tests a chunk as [`test_chunk`](crate::test_chunk) does, with its faults, and gives the reader of what stands
    /// behind so many of its cells.
    ///
    /// The time is linear in the bytes of the pages, of which the one in which those cells end is read again: of the
    /// cells before them the runs of levels, the packed levels, and the texts and bytes a further time. Memory is taken
    /// for one page's header at a time.
    pub fn tested(
        alloc: Global,
        leaf: Leaf<'a>,
        bytes: &'a [u8],
        stated: i64,
        num_values: u64,
        passed: u64,
    ) -> Result<ColumnReader<'a>, FileError>
        // The column behind those cells is left, or the fault is the first one of the chunk.
        ensures { GivesWhere (λ reader c. AreLeft (leaf_view leaf.entry) reader
            (cut_off passed (highest (leaf_view leaf.entry)) c)) result
            (chunk_at (leaf_view leaf.entry) bytes.now stated num_values) }
    {
        let mark = mark_in_chunk(alloc, &leaf, bytes, stated, num_values, passed)?;
        let mut reader = ColumnReader {
            leaf,
            bytes,
            place: mark.place,
            left: mark.left,
            levels: HybridReader::equal(0, 0),
            count: 0,
            values: PlainReader::none(leaf.leaf_type),
        };
        let before = num_values.saturating_sub(mark.left);
        reader.pass(alloc, passed.saturating_sub(before))?;
        Ok(reader)
    }

    /// Passes so many cells, or all that are left. Of what is left where memory runs out nothing is said.
    ///
    /// The time is linear in the bytes of the pages that they stand in, however many they are. None of them is made;
    /// memory is taken for one page's header at a time.
    pub fn pass(&mut self, alloc: Global, count: u64) -> Result<(), FileError>
        // The column behind those cells is left, unless memory runs out.
        ensures passed { (l : pages.Leaf) (c : columns.Column) → AreLeft l self.old c
            → FindsWhere (λ _. AreLeft l self.new (cut_off count (highest l) c)) result }
    {
        let mut wanted = count;
        while wanted > 0 {
            let at_hand = self.fill(alloc)?;
            if at_hand == 0 {
                return Ok(());
            }
            let cells = wanted.min(at_hand);
            self.pass_at_hand(cells)?;
            wanted -= cells;
        }
        Ok(())
    }

    /// Passes so many cells of the page at hand. Where there are fewer, nothing is said. It takes no memory.
    fn pass_at_hand(&mut self, cells: u64) -> Result<(), FileFault>
        ensures passed { (l : pages.Leaf) (c : columns.Column) → AreLeft l self.old c → cells ≤ at_hand self.old
            → IsOk result × AreLeft l self.new (cut_off cells (highest l) c) }
    {
        self.count = self.count.saturating_sub(cells);
        let present = self.levels.pass(cells, self.leaf.highest());
        self.values.pass(present)?;
        Ok(())
    }

    /// Goes on to the next page with cells, where all cells of the page at hand were taken: how many cells are at hand
    /// then, 0 only behind the last page. Of a chunk that [`test_chunk`](crate::test_chunk) refuses nothing is said:
    /// test it first. Where memory runs out the same column is left.
    pub fn fill(&mut self, alloc: Global) -> Result<u64, FileError>
        // The same column is left, and of it so many cells are at hand, unless memory runs out.
        ensures filled { (l : pages.Leaf) (c : columns.Column) → AreLeft l self.old c → Fills l c result self.new }
    {
        // Each page takes a byte at least.
        for _page in 0..self.bytes.len() {
            if self.count > 0 || self.left == 0 {
                return Ok(self.count);
            }
            self.next_page(alloc)?;
        }
        Ok(self.count)
    }

    /// Holds the next page in place of the one that was held.
    fn next_page(&mut self, alloc: Global) -> Result<(), FileError>
        ensures same { OnErr result (self.new ≡ self.old) }
        ensures held { (l : pages.Leaf) (here : columns.Column) (next : ℕ) → leaf_view self.old.leaf ≡ l
            → page_at l self.old.bytes.now self.old.place self.old.left ≡ Ok (here, next)
            → FindsWhere (λ _. HoldsPage l self.new here × (self.new.bytes.now ≡ self.old.bytes.now)
            × (self.new.place ≡ next) × (self.new.left ≡ self.old.left - length here.levels)) result }
    {
        let page = read_page(alloc, &self.leaf, self.bytes, self.place, self.left)?;
        self.left -= page.num_values();
        self.place = page.next();
        self.count = page.num_values();
        self.values = PlainReader::new(self.leaf.leaf_type, page.values());
        self.levels = page.into_levels();
        Ok(())
    }

    /// Takes so many cells of the page at hand: the levels of all of them, and the column of at most `most` of them,
    /// from the one of the number `first` on. Where there are fewer at hand, and of what is left where memory runs out,
    /// nothing is said.
    ///
    /// The time is linear in the runs of these levels and in those of them that are packed, in the cells that are kept,
    /// and in the texts and bytes among the cells that are taken; other values that aren't kept cost nothing. The
    /// memory is linear in the runs that are given, each as long as it can be, and in the cells that are kept.
    pub fn take(
        &mut self,
        alloc: Global,
        count: u64,
        first: u64,
        most: u64,
    ) -> Result<ColumnPart<Value>, FileError>
        // What is kept of these cells, and the column behind them is left, unless memory runs out.
        ensures taken { (l : pages.Leaf) (c : columns.Column) → AreLeft l self.old c → count ≤ at_hand self.old
            → FindsWhere (λ part. IsPartOf l first most part (cut_cells l 0 count c)
            × AreLeft l self.new (cut_off count (highest l) c)) result }
    {
        let levels = self.levels.take(alloc, count)?;
        let before = cut_runs(alloc, &levels, 0, first)?;
        let kept = cut_runs(alloc, &levels, first, most)?;
        let highest = self.leaf.highest();
        let skipped = present(&before, highest);
        let taken = present(&levels, highest);
        let mut column = no_cells(alloc);
        add_levels(&kept, &mut column.levels)?;
        self.values.pass(skipped)?;
        self.values
            .add(alloc, present(&kept, highest), &mut column.values)?;
        self.values.pass(taken.saturating_sub(skipped))?;
        self.count = self.count.saturating_sub(count);
        Ok(ColumnPart {
            levels,
            kept: column,
        })
    }
}

/// A column in which no cell stands yet.
fn no_cells(alloc: Global) -> Column<Value>
    ensures levels { result.levels.items ≡ [] }
    ensures values { result.values.items ≡ [] }
{
    Column {
        levels: Vec::new(alloc),
        values: Vec::new(alloc),
    }
}
