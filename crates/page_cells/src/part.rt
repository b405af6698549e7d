//! Some of the cells of a page, which follow one another.

ghost use Rattle.std.specs.Prelude.{◌≡◌, ◌≤◌, ◌<◌, ◌+◌, ◌^◌, ◌++◌, ℕ, List, [], map, All, IfOk, Ok, OnOk, true};
ghost use Rattle.lake_bytes.specs.Hybrid.{values_of};
ghost use Rattle.row_core.specs.Rows as rows;
ghost use Rattle.row_core.specs.Views.{row_views};
ghost use Rattle.shred.specs.Parts.{part_of};
ghost use Rattle.parquet_footer.specs.Outcome.{Finds};
ghost use Rattle.page_cells.specs.Texts.{is_proper};
ghost use Rattle.page_cells.specs.Plain.{plain_at, truth_of, truths_at};

use crate::fault::bad_bytes;
use crate::plain::{add_truth, add_values, pass_values};
use crate::types::LeafType;
use lake_bytes::{Cursor, Run, unpack};
use parquet_footer::FileError;
use row_core::Value;
use std::alloc::{AllocError, Global};

/// Some of the values of runs that follow one another, as runs.
pub fn cut_runs(alloc: Global, runs: &[Run], skip: u64, count: u64) -> Result<Vec<Run>, AllocError>
    ensures { IfOk result (λ cut. values_of cut.items ≡ part_of skip count (values_of runs.now)) }
{
    let mut cut = Vec::new(alloc);
    let mut before = skip;
    let mut wanted = count;
    for run in runs {
        let passed = before.min(run.count);
        let kept = wanted.min(run.count - passed);
        before -= passed;
        wanted -= kept;
        if kept > 0 {
            cut.push(Run {
                value: run.value,
                count: kept,
            })?;
        }
    }
    Ok(cut)
}

/// Adds so many values behind those that are passed over; all stand in the bytes, and their texts are UTF-8. Values of
/// a fixed size are passed over at once.
pub(crate) fn add_some_values(
    alloc: Global,
    leaf_type: LeafType,
    skip: u64,
    count: u64,
    bytes: &[u8],
    out: &mut Vec<Value>,
) -> Result<(), FileError>
    ensures { (total : ℕ) (values : List rows.Value) → plain_at leaf_type total bytes.now ≡ Ok (values, [])
        → All (λ v. is_proper v ≡ true) values → skip + count ≤ total → total < 2 ^ 64
        → Finds (λ _. row_views out.new.items) (row_views out.old.items ++ part_of skip count values) result }
{
    if let LeafType::Boolean = leaf_type {
        return add_some_truths(alloc, skip, count, bytes, out);
    }
    let mut cursor = Cursor::new(bytes);
    if let Err(fault) = pass_values(&mut cursor, leaf_type, skip) {
        return Err(bad_bytes(fault));
    }
    add_values(alloc, leaf_type, count, cursor.left(), out)
}

/// Adds so many truth values behind those that are passed over; all stand in the bytes. Whole bytes are passed over at
/// once.
fn add_some_truths(
    alloc: Global,
    skip: u64,
    count: u64,
    bytes: &[u8],
    out: &mut Vec<Value>,
) -> Result<(), FileError>
    ensures { (total : ℕ) (values : List rows.Value) → truths_at total bytes.now ≡ Ok (values, [])
        → skip + count ≤ total → total < 2 ^ 64
        → Finds (λ _. row_views out.new.items) (row_views out.old.items ++ part_of skip count values) result }
{
    let mut cursor = Cursor::new(bytes);
    if let Err(fault) = cursor.take((skip / 8) as usize) {
        return Err(bad_bytes(fault));
    }
    let bits = (skip % 8).saturating_add(count);
    let runs = unpack(alloc, cursor.left(), 1, bits)?;
    let kept = cut_runs(alloc, &runs, skip % 8, count)?;
    Ok(add_truths_of(&kept, out)?)
}

/// Adds the truth values of runs of bits.
fn add_truths_of(runs: &[Run], out: &mut Vec<Value>) -> Result<(), AllocError>
    ensures { OnOk result (row_views out.new.items ≡ row_views out.old.items ++ map truth_of (values_of runs.now)) }
{
    for run in runs {
        add_truth(run.value == 1, run.count, out)?;
    }
    Ok(())
}
