//! The rows of the columns that readers have left, made as far as the pages at hand reach, and then as far as the next.

ghost use Rattle.std.specs.Prelude.{◌≡◌, ◌≢◌, ◌≤◌, ◌<◌, ◌^◌, ℕ, List, All, map, length, true, OnOk, IfOk};
ghost use Rattle.std.specs.List.{list_all};
ghost use Rattle.row_core.specs.Views.{row_views};
ghost use Rattle.outcomes.specs.Results.{refused_as};
ghost use Rattle.shred.specs.Columns as columns;
ghost use Rattle.shred.specs.Parts.{ArePlain};
ghost use Rattle.shred.specs.Views.{part_views, shape_view};
ghost use Rattle.shred.specs.Ways.{highest, ways};
ghost use Rattle.row_assembly.specs.Assembly.{assembled, row_count, AreEven};
ghost use Rattle.row_assembly.specs.Parts.{fronts, parts_of, rests, rows_part};
ghost use Rattle.parquet_footer.specs.Outcome.{FileGives};
ghost use Rattle.parquet_footer.specs.declared.fault.FileFault.TheVariants.{SchemaMismatch};
ghost use Rattle.page_cells.specs.Outcome.{FindsWhere};
ghost use Rattle.parquet_schema.specs.Leaves.{LeafIn};
ghost use Rattle.parquet_file.specs.Internal.{levels_of, AreAllLeft, AreAtHand, ArePartsOf, AreSoundColumns, HasLevels};
ghost use Rattle.parquet_file.specs.Outcome.{AddsPart};
ghost use Rattle.parquet_file.specs.Reading.{has_rows};

use crate::flat::is_flat;
use parquet_footer::{FileError, FileFault};
use parquet_pages::ColumnReader;
use row_assembly::{ShredError, assemble_part};
use row_core::Value;
use shred::{ColumnPart, Shape};
use std::alloc::Global;

/// How many rows are made at a time at most, so that what is made of a page doesn't grow with it.
const ROWS_AT_A_TIME: u64 = 4_096;

/// Adds at most `most` of so many rows, from the one of the number `first` on; the readers, one for each leaf, have
/// their columns left. P8 where the columns are those of no rows. Where no field is a struct the pages behind these
/// rows aren't looked at.
pub(crate) fn add_rows(
    alloc: Global,
    shape: &Shape,
    count: u64,
    readers: &mut [ColumnReader],
    first: u64,
    most: u64,
    rows: &mut Vec<Value>,
) -> Result<(), FileError>
    ensures { (leaves : List LeafIn) (given : List columns.Column) → AreAllLeft leaves readers.old given
        → levels_of leaves ≡ map highest (ways (shape_view shape.now)) → 0 < length leaves
        → list_all (has_rows count) given ≡ true → AreSoundColumns (levels_of leaves) given
        → AddsPart first most (refused_as (λ fault. SchemaMismatch) (assembled (shape_view shape.now) given))
        (row_views rows.old.items) result (row_views rows.new.items) }
{
    let mut left = count;
    let mut skip = first;
    let mut wanted = most;
    let is_flat = is_flat(shape);
    while left > 0 {
        if is_flat && wanted == 0 {
            return Ok(());
        }
        let at_hand = rows_at_hand(alloc, readers, left.min(ROWS_AT_A_TIME))?;
        if at_hand == 0 {
            return Ok(());
        }
        let before = rows.len();
        add_rows_at_hand(alloc, shape, at_hand, readers, skip, wanted, rows)?;
        wanted = wanted.saturating_sub(rows.len().saturating_sub(before) as u64);
        skip = skip.saturating_sub(at_hand);
        left -= at_hand;
    }
    Ok(())
}

/// Of how many rows, `most` at most, all readers have the cells at hand: none only where a column has none.
fn rows_at_hand(alloc: Global, readers: &mut [ColumnReader], most: u64) -> Result<u64, FileError>
    ensures few { IfOk result (λ rows. rows ≤ most) }
    ensures at_hand { (leaves : List LeafIn) (given : List columns.Column) → AreAllLeft leaves readers.old given
        → FindsWhere (λ rows. AreAllLeft leaves readers.new given × AreAtHand rows readers.new
        × (0 < most → All HasLevels given → 0 < rows)) result }
{
    let mut rows = most;
    for reader in readers.iter_mut() {
        rows = rows.min(reader.fill(alloc)?);
    }
    Ok(rows)
}

/// Adds at most `most` of so many rows, whose cells are at hand, from the one of the number `first` on, and leaves
/// those behind them.
fn add_rows_at_hand(
    alloc: Global,
    shape: &Shape,
    count: u64,
    readers: &mut [ColumnReader],
    first: u64,
    most: u64,
    rows: &mut Vec<Value>,
) -> Result<(), FileError>
    ensures added { (leaves : List LeafIn) (given : List columns.Column) → AreAllLeft leaves readers.old given
        → AreAtHand count readers.old → levels_of leaves ≡ map highest (ways (shape_view shape.now))
        → AreEven (shape_view shape.now) given → count ≤ row_count given
        → AddsPart first most (refused_as (λ fault. SchemaMismatch)
        (assembled (shape_view shape.now) (fronts count (levels_of leaves) given)))
        (row_views rows.old.items) result (row_views rows.new.items) }
    ensures left { (leaves : List LeafIn) (given : List columns.Column) → AreAllLeft leaves readers.old given
        → AreAtHand count readers.old
        → OnOk result (AreAllLeft leaves readers.new (rests count (levels_of leaves) given)) }
{
    let parts = take_parts(alloc, readers, count, first, most)?;
    let mut added = rows_of_parts(alloc, shape, first, parts)?;
    rows.append(&mut added)?;
    Ok(())
}

/// Takes so many cells, which are at hand, from each reader: the levels of all of them, and the columns of at most
/// `most` of them, from the one of the number `first` on.
fn take_parts(
    alloc: Global,
    readers: &mut [ColumnReader],
    count: u64,
    first: u64,
    most: u64,
) -> Result<Vec<ColumnPart<Value>>, FileError>
    ensures { (leaves : List LeafIn) (given : List columns.Column) → AreAllLeft leaves readers.old given
        → AreAtHand count readers.old
        → FindsWhere (λ parts. ArePartsOf first most leaves parts.items (fronts count (levels_of leaves) given)
        × AreAllLeft leaves readers.new (rests count (levels_of leaves) given)) result }
{
    let mut parts = Vec::with_capacity(alloc, readers.len())?;
    for reader in readers.iter_mut() {
        parts.push(reader.take(alloc, count, first, most)?)?;
    }
    Ok(parts)
}

/// Some of the rows whose columns these are, from the one of the number `first` on. P8 for columns that are those of no
/// rows.
fn rows_of_parts(
    alloc: Global,
    shape: &Shape,
    first: u64,
    parts: Vec<ColumnPart<Value>>,
) -> Result<Vec<Value>, FileError>
    ensures { (most : ℕ) (given : List columns.Column)
        → part_views parts.items ≡ parts_of first most (map highest (ways (shape_view shape.now))) given
        → AreEven (shape_view shape.now) given → All ArePlain given → row_count given < 2 ^ 64
        → FileGives (λ rows. row_views rows.items) result
        (refused_as (λ fault. SchemaMismatch) (rows_part first most (assembled (shape_view shape.now) given))) }
{
    match assemble_part(alloc, shape, first, parts) {
        Ok(rows) => Ok(rows),
        Err(error) => Err(no_rows(error)),
    }
}

/// Columns that are those of no rows.
fn no_rows(error: ShredError) -> FileError
    ensures memory { error ≡ ShredError.Memory → result ≡ FileError.Memory }
    ensures fault { error ≢ ShredError.Memory → result ≡ FileError.Fault SchemaMismatch }
{
    match error {
        ShredError::Memory => FileError::Memory,
        _ => FileError::Fault(FileFault::SchemaMismatch),
    }
}
