//! Rows made of columns of which only some values were kept.

ghost use Rattle.std.specs.Prelude.{◌≡◌, ◌≤◌, ◌<◌, ◌^◌, ℕ, List, [], All, length, map, drop, min, true, option_map, IfOk, OnOk};
ghost use Rattle.outcomes.specs.Outcome.{Gives};
ghost use Rattle.lake_bytes.specs.Hybrid.{values_of};
ghost use Rattle.row_core.specs.Views.{row_views};
ghost use Rattle.shred.specs.Columns.{Column};
ghost use Rattle.shred.specs.Parts.{ArePlain};
ghost use Rattle.shred.specs.Views.{cell_view, cells_view, column_views, part_views, shape_view};
ghost use Rattle.shred.specs.Ways.{ways, highest};
ghost use Rattle.row_assembly.specs.Assembly.{assembled, first_cell, heads, row_count, AreEven};
ghost use Rattle.row_assembly.specs.Faults.{says};
ghost use Rattle.row_assembly.specs.Levels.{kept_of, row_tested, rows_left, test_cells, tested, tests_of, AreEqual, AreLong};
ghost use Rattle.row_assembly.specs.Neighbours.{leaf_levels, tops_in, HeadAgrees, HeadsAgree};
ghost use Rattle.row_assembly.specs.Parts.{parts_of, rows_part};
ghost use Rattle.row_assembly.specs.Views.{leaf_view, leaf_views, level_view, level_views, reader_leaf, reader_leaves};

use crate::assembling::{read_rows, row_count};
use crate::cells::readers_of;
use crate::fault::ShredError;
use crate::neighbours::{LeafLevels, highest_each, leaf_levels};
use crate::rows::value;
use lake_bytes::Run;
use row_core::Value;
use shred::{Cell, Column as Cells, ColumnPart, Shape};
use std::alloc::{AllocError, Global};
use std::collections::VecDeque;

/// Some rows that follow one another, from the one of this number on, of columns of which their values were kept; of
/// the other rows the levels are tested. One part for each leaf of the shape, depth first. The values are moved. The
/// time is linear in the rows that are made times the leaves, and in the runs of levels times the leaves.
///
/// H2 as [`assemble`](crate::assemble) has it for all rows. The parts are those of even columns; of others nothing is
/// said, and H1 may come.
pub fn assemble_part(
    alloc: Global,
    shape: &Shape,
    first: u64,
    parts: Vec<ColumnPart<Value>>,
) -> Result<Vec<Value>, ShredError>
    // Where these are the parts of even columns, the rows are a part of those that the columns have, and the fault is
    // that of the columns, unless memory runs out.
    ensures { (most : ℕ) (given : List Column) → part_views parts.items ≡ parts_of first most (map highest (ways (shape_view shape.now))) given
        → AreEven (shape_view shape.now) given → All ArePlain given → row_count given < 2 ^ 64
        → Gives says (λ rows. row_views rows.items) result (rows_part first most (assembled (shape_view shape.now) given)) }
{
    let leaves = leaf_levels(alloc, shape)?;
    let tops = highest_each(alloc, &leaves)?;
    let (mut left, kept) = split_parts(alloc, &leaves, parts)?;
    rows_between(alloc, shape, first, &tops, &mut left, kept)
}

/// The rows of the kept columns, where the rows before the one of this number and those behind them can be made.
fn rows_between(
    alloc: Global,
    shape: &Shape,
    first: u64,
    tops: &[u64],
    left: &mut [LevelReader],
    kept: Vec<Cells<Value>>,
) -> Result<Vec<Value>, ShredError>
    ensures { (most : ℕ) (given : List Column) → tops.now ≡ map highest (ways (shape_view shape.now))
        → reader_leaves left.old ≡ leaf_levels (shape_view shape.now)
        → level_views left.old ≡ tests_of tops.now (parts_of first most tops.now given)
        → column_views kept.items ≡ kept_of tops.now (parts_of first most tops.now given)
        → AreEven (shape_view shape.now) given → All ArePlain given → row_count given < 2 ^ 64
        → Gives says (λ rows. row_views rows.items) result (rows_part first most (assembled (shape_view shape.now) given)) }
{
    test_rows(alloc, shape, first, left)?;
    let count = row_count(&kept);
    let mut readers = readers_of(alloc, count, tops, kept)?;
    let rows = read_rows(alloc, shape, count, &mut readers)?;
    pass_rows(left, count as u64);
    test_rows(alloc, shape, u64::MAX, left)?;
    Ok(rows)
}

/// The readers of the levels and the kept columns, one for each leaf.
fn split_parts(
    alloc: Global,
    leaves: &[LeafLevels],
    parts: Vec<ColumnPart<Value>>,
) -> Result<(Vec<LevelReader>, Vec<Cells<Value>>), AllocError>
    ensures levels { IfOk result (λ v. level_views v.0.items ≡ tests_of (tops_in (leaf_views leaves.now)) (part_views parts.items)) }
    ensures kept { IfOk result (λ v. column_views v.1.items ≡ kept_of (tops_in (leaf_views leaves.now)) (part_views parts.items)) }
    // Where there is a part for each leaf, the readers are those of the leaves.
    ensures leaves { IfOk result (λ v. length leaves.now ≤ length parts.items → reader_leaves v.0.items ≡ leaf_views leaves.now) }
{
    let mut parts = VecDeque::from_vec(parts);
    let mut left = Vec::with_capacity(alloc, leaves.len())?;
    let mut kept = Vec::with_capacity(alloc, leaves.len())?;
    for leaf in leaves {
        let Some(part) = parts.pop_front() else {
            return Ok((left, kept));
        };
        left.push(LevelReader::open(*leaf, part.levels))?;
        kept.push(part.kept)?;
    }
    Ok((left, kept))
}

/// What is left of the levels of a column.
#[derive(Drop)]
struct LevelReader {
    /// The highest level, at which a cell has a value.
    top: u64,
    /// How many optional fields hold both this leaf and the one in front of it.
    shared: u64,
    /// The next level, and how often it comes before the runs that are left.
    level: u64,
    count: u64,
    rest: VecDeque<Run>,
}

impl LevelReader {
    fn open(leaf: LeafLevels, runs: Vec<Run>) -> LevelReader
        ensures levels { level_view result ≡ test_cells leaf.highest (values_of runs.items) }
        ensures leaf { reader_leaf result ≡ leaf_view leaf }
    {
        LevelReader {
            top: leaf.highest,
            shared: leaf.shared,
            level: 0,
            count: 0,
            rest: VecDeque::from_vec(runs),
        }
    }

    /// Where no level of the last run is left, goes to the next one that has some.
    fn to_next_run(&mut self)
        ensures same { level_view self.new ≡ level_view self.old }
        ensures none { self.new.count ≡ 0 → level_view self.new ≡ [] }
        ensures leaf { reader_leaf self.new ≡ reader_leaf self.old }
    {
        while self.count == 0 {
            let Some(run) = self.rest.pop_front() else {
                return;
            };
            self.level = run.value;
            self.count = run.count;
        }
    }

    /// Passes so many levels, or all that are left.
    fn pass(&mut self, rows: u64)
        ensures left { level_view self.new ≡ drop rows (level_view self.old) }
        ensures leaf { reader_leaf self.new ≡ reader_leaf self.old }
    {
        let mut left = rows;
        while left > 0 {
            self.to_next_run();
            if self.count == 0 {
                return;
            }
            let step = left.min(self.count);
            left -= step;
            self.count -= step;
        }
    }

    /// The next cell, with some value where there is one.
    fn cell(&mut self) -> Option<Cell<Value>>
        ensures cell { option_map cell_view result ≡ first_cell (level_view self.old) }
        ensures same { level_view self.new ≡ level_view self.old }
        ensures leaf { reader_leaf self.new ≡ reader_leaf self.old }
    {
        self.to_next_run();
        if self.count == 0 {
            return None;
        }
        let value = if self.level == self.top {
            Some(Value::Bool(true))
        } else {
            None
        };
        Some(Cell {
            level: self.level,
            value,
        })
    }

    /// Whether the level at hand may be the leaf's, and agrees with that of the leaf in front: up to the optional
    /// fields that hold both, they are the same.
    fn agrees(&self, before: u64) -> bool
        ensures { result ≡ true → HeadAgrees before (reader_leaf self.now) self.now.level × (0 < self.now.count) }
    {
        self.count > 0
            && self.level <= self.top
            && before.min(self.shared) == self.level.min(self.shared)
    }
}

/// Whether the levels at hand agree, each with the one in front of it. Where they do, the row can be made.
fn levels_agree(readers: &[LevelReader]) -> bool
    ensures { result ≡ true → HeadsAgree 0 (reader_leaves readers.now) (heads (level_views readers.now)) }
{
    let mut before = 0;
    for reader in readers {
        if !reader.agrees(before) {
            return false;
        }
        before = reader.level;
    }
    true
}

/// Passes so many rows, or all that are left.
fn pass_rows(readers: &mut [LevelReader], rows: u64)
    ensures left { level_views readers.new ≡ map (drop rows) (level_views readers.old) }
    ensures leaves { reader_leaves readers.new ≡ reader_leaves readers.old }
{
    for reader in readers.iter_mut() {
        reader.pass(rows);
    }
}

/// Of how many rows the levels are those of the next one, as far as it is easily seen; 0 behind the last row.
fn equal_rows(readers: &mut [LevelReader], most: u64) -> u64
    ensures same { level_views readers.new ≡ level_views readers.old }
    ensures leaves { reader_leaves readers.new ≡ reader_leaves readers.old }
    ensures less { result ≤ most }
    ensures equal { AreEqual result (level_views readers.old) }
    ensures none { result ≡ 0 → 0 < most → (there : ℕ) → AreLong there (level_views readers.old) → there ≡ 0 }
{
    let mut rows = most;
    for reader in readers.iter_mut() {
        reader.to_next_run();
        rows = rows.min(reader.count);
    }
    rows
}

/// Tests the levels of so many rows, or of all that are left, and passes them.
fn test_rows(
    alloc: Global,
    shape: &Shape,
    rows: u64,
    readers: &mut [LevelReader],
) -> Result<(), ShredError>
    ensures tested { reader_leaves readers.old ≡ leaf_levels (shape_view shape.now)
        → AreLong (rows_left (level_views readers.old)) (level_views readers.old)
        → Gives says (λ _. tt) result (tested (shape_view shape.now) (min rows (rows_left (level_views readers.old))) (level_views readers.old)) }
    ensures left { OnOk result (AreLong (rows_left (level_views readers.old)) (level_views readers.old)
        → level_views readers.new ≡ map (drop rows) (level_views readers.old)) }
    ensures leaves { OnOk result (reader_leaves readers.new ≡ reader_leaves readers.old) }
{
    let mut left = rows;
    let mut cells = VecDeque::with_capacity(alloc, readers.len())?;
    while left > 0 {
        if readers.is_empty() {
            return Ok(());
        }
        let equal = equal_rows(readers, left);
        if equal == 0 {
            return Ok(());
        }
        test_row(alloc, shape, readers, &mut cells)?;
        pass_rows(readers, equal);
        left -= equal;
    }
    Ok(())
}

/// Tests the levels of the next row. Where they don't agree, its cells are put in place of those that were there, and
/// tell the fault.
fn test_row(
    alloc: Global,
    shape: &Shape,
    readers: &mut [LevelReader],
    cells: &mut VecDeque<Cell<Value>>,
) -> Result<(), ShredError>
    ensures tested { reader_leaves readers.old ≡ leaf_levels (shape_view shape.now)
        → Gives says (λ _. tt) result (row_tested (shape_view shape.now) (heads (level_views readers.old))) }
    ensures same { OnOk result (level_views readers.new ≡ level_views readers.old) }
    ensures leaves { OnOk result (reader_leaves readers.new ≡ reader_leaves readers.old) }
{
    if levels_agree(readers) {
        return Ok(());
    }
    next_test(readers, cells)?;
    value(alloc, shape, 0, cells)?;
    Ok(())
}

/// Puts the next cell of each reader in place of those that were there.
fn next_test(
    readers: &mut [LevelReader],
    cells: &mut VecDeque<Cell<Value>>,
) -> Result<(), AllocError>
    ensures cells { OnOk result (cells_view cells.new.items ≡ heads (level_views readers.old)) }
    ensures same { OnOk result (level_views readers.new ≡ level_views readers.old) }
    ensures leaves { OnOk result (reader_leaves readers.new ≡ reader_leaves readers.old) }
{
    cells.clear();
    for reader in readers.iter_mut() {
        if let Some(cell) = reader.cell() {
            cells.push_back(cell)?;
        }
    }
    Ok(())
}
