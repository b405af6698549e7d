//! The definition levels of a page: tested and told, and none of them kept.

ghost use Rattle.std.specs.Prelude.{◌≡◌, ◌≤◌, ◌<◌, ◌^◌, ◌++◌, ℕ, List, [], length, replicate};
ghost use Rattle.lake_bytes.specs.declared.fault.ByteFault.{ByteFault};
ghost use Rattle.lake_bytes.specs.Hybrid.{values_of};
ghost use Rattle.page_cells.specs.Levels.{AreTold, TellsLevels, levels_at, may_stand, present, told_levels_at, width_of};
ghost use Rattle.page_cells.specs.Internal.{IsToldOf};

use lake_bytes::{ByteFault, Cursor, HybridReader, Run, hybrid_test};

/// What a test tells of levels.
#[derive(Clone, Copy)]
pub struct LevelsTold {
    /// How many are the highest, at which there is a value.
    pub present: u64,
    /// Whether nulls stand only where they may.
    pub nulls_may_stand: bool,
}

/// So many levels in front of the cursor, none above the highest, tested and told; and a reader of them. B1 to B4 for
/// their bytes, B3 also for a level that is above the highest.
///
/// It takes no memory, and nothing is kept of the levels. The time is linear in their runs and their packed values.
#[tactic(auto, unfolding(crate::specs::Levels::levels_at))]
pub fn test_levels<'a>(
    cursor: &mut Cursor<'a>,
    nullable: &[bool],
    count: u64,
) -> Result<(HybridReader<'a>, LevelsTold), ByteFault>
    ensures { TellsLevels nullable.now (levels_at (length nullable.now) count cursor.old) result cursor.new }
{
    if nullable.is_empty() {
        return Ok(untold_levels(count));
    }
    told_levels(cursor, nullable, count)
}

/// The levels of a column without levels.
fn untold_levels<'a>(count: u64) -> (HybridReader<'a>, LevelsTold)
    ensures levels { result.0 ≡ replicate count 0 }
    ensures told { AreTold [] (replicate count 0) result.1 }
{
    let told = LevelsTold {
        present: count,
        nulls_may_stand: true,
    };
    (HybridReader::equal(0, count), told)
}

/// The levels behind their length in four bytes.
#[tactic(auto, unfolding(crate::specs::Levels::told_levels_at, crate::specs::Levels::none_above))]
fn told_levels<'a>(
    cursor: &mut Cursor<'a>,
    nullable: &[bool],
    count: u64,
) -> Result<(HybridReader<'a>, LevelsTold), ByteFault>
    ensures { TellsLevels nullable.now (told_levels_at (length nullable.now) count cursor.old) result cursor.new }
{
    let size = cursor.u32_le()?;
    let bytes = cursor.take(size as usize)?;
    let width = width_of(nullable.len() as u64);
    hybrid_test(&mut Cursor::new(bytes), width, count)?;
    match tell(nullable, HybridReader::new(bytes, width, count)) {
        Some(told) => Ok((HybridReader::new(bytes, width, count), told)),
        None => Err(ByteFault::OutOfRange),
    }
}

/// What these levels tell; none where one is above the highest.
fn tell(nullable: &[bool], levels: HybridReader) -> Option<LevelsTold>
    ensures { IsToldOf nullable.now levels.entry result }
{
    let mut levels = levels;
    let mut told = LevelsTold {
        present: 0,
        nulls_may_stand: true,
    };
    while let Some(run) = levels.next(u64::MAX) {
        if run.value > nullable.len() as u64 {
            return None;
        }
        told = told_with(told, nullable, run);
    }
    Some(told)
}

/// What levels tell with a run behind them.
fn told_with(told: LevelsTold, nullable: &[bool], run: Run) -> LevelsTold
    requires { 0 < run.count }
    ensures { (front : List ℕ) → AreTold nullable.now front told
        → AreTold nullable.now (front ++ replicate run.count run.value) result }
{
    let mut present = told.present;
    if run.value == nullable.len() as u64 {
        present = present.saturating_add(run.count);
    }
    LevelsTold {
        present,
        nulls_may_stand: told.nulls_may_stand && may_stand(nullable, run.value),
    }
}

/// Whether a cell of this level may stand.
fn may_stand(nullable: &[bool], level: u64) -> bool
    ensures { result ≡ may_stand nullable.now level }
{
    match nullable.get(level as usize) {
        Some(nullable) => *nullable,
        None => true,
    }
}

/// The bits of a level, where the highest is at most 31 (Apache Parquet, "Run Length Encoding / Bit-Packing Hybrid").
#[tactic(auto, unfolding(crate::specs::Levels::width_of))]
pub fn width_of(highest: u64) -> u32
    ensures width { result ≡ width_of highest }
    ensures few { result ≤ 5 }
{
    match highest {
        0 => 0,
        1 => 1,
        2..=3 => 2,
        4..=7 => 3,
        8..=15 => 4,
        _ => 5,
    }
}

/// How many levels are the highest, where there are fewer than 2^64.
pub fn present(levels: &[Run], highest: u64) -> u64
    ensures { length (values_of levels.now) < 2 ^ 64 → result ≡ present highest (values_of levels.now) }
{
    let mut count = 0u64;
    for run in levels {
        if run.value == highest {
            count = count.saturating_add(run.count);
        }
    }
    count
}
