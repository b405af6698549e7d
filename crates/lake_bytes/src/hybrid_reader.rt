//! A hybrid of equal and of packed values: tested, and then taken run by run. Neither takes memory, and nothing is kept
//! of it but a place.

ghost use Rattle.std.specs.Prelude.{◌≡◌, ◌≢◌, ◌≤◌, ◌<◌, ◌^◌, ◌==◌, ◌++◌, ℕ, List, [], Ok, Err, IfOk, IfSome, IsOk, OnErr, OnOk, None, length, count_by, take, drop, replicate};
ghost use Rattle.lake_bytes.specs.Hybrid.{HoldsValues, Reads, hybrid_at, low_first, run_at, unpacked, values_of};
ghost use Rattle.lake_bytes.specs.Tested.{left_of, run_values, values_left, values_or_none, AreHeld, Begins, IsRunHeld, Passes};
ghost use Rattle.lake_bytes.specs.declared.fault.ByteFault.{ByteFault};
ghost use Rattle.outcomes.specs.Bytes.{IsBytes};

use crate::cursor::Cursor;
use crate::fault::ByteFault;
use crate::hybrid::{Bits, bytes_for, low_first, push_run, take_groups, values_in};
use crate::run::{HybridError, Run};
use std::alloc::{AllocError, Global};
use std::marker::Model;

/// What is left of a run: so many values.
#[derive(Drop)]
pub(crate) struct RunLeft<'a> {
    count: u64,
    values: RunValues<'a>,
}

#[derive(Drop)]
enum RunValues<'a> {
    /// One value, again and again.
    Equal(u64),
    Packed(Bits<'a>),
}

/// Tests that a hybrid of so many values, each of `width` bits, stands in front. The cursor then stands behind the run
/// that has the last of them. B1 to B4 as [`hybrid_read`](crate::hybrid_read) has them.
///
/// It takes no memory; the time is linear in the runs, whose values aren't looked at.
pub fn hybrid_test(cursor: &mut Cursor, width: u32, count: u64) -> Result<(), ByteFault>
    requires { width ≤ 32 }
    ensures passes { Passes (hybrid_at width count cursor.old) result cursor.new }
    ensures unchanged { OnErr result (cursor.new ≡ cursor.old) }
{
    let rest = test_runs(cursor.left(), width, count)?;
    *cursor = Cursor::new(rest);
    Ok(())
}

/// The first `count` values of the hybrid in front, each of `width` bits, 0 to 32, as runs of equal ones (Apache
/// Parquet, "Run Length Encoding / Bit-Packing Hybrid"). The cursor then stands behind the run that has the last of
/// them, whose further values are passed over. A value of a run of equal ones has whole bytes, so it may need more
/// than `width` bits.
///
/// B1 where the bytes end before so many values, also where a group of the last run isn't there; B2 and B3 for a
/// run's header as [`Cursor::varint`] has them; B4 for a run of no values. After a refusal the cursor stands where it
/// stood.
///
/// The time is linear in the bytes that are passed, however often a run repeats its value; the memory in the runs. A
/// [`HybridReader`] takes none.
pub fn hybrid_read(
    alloc: Global,
    cursor: &mut Cursor,
    width: u32,
    count: u64,
) -> Result<Vec<Run>, HybridError>
    requires { width ≤ 32 }
    // What is read stands in front.
    ensures found { IfOk result (λ runs. HoldsValues width count cursor.old (values_of runs.items)) }
    // Where a front of the bytes is runs of enough values, the first of them are read, unless memory runs out.
    ensures whatever_stands { (values : List ℕ) → HoldsValues width count cursor.old values
        → result ≢ Err HybridError.Memory → IfOk result (λ runs. values_of runs.items ≡ values) × IsOk result }
    ensures unchanged { OnErr result (cursor.new ≡ cursor.old) }
    // Which of these it is, as reading from the left.
    ensures exact { Reads (hybrid_at width count cursor.old) cursor.old result cursor.new }
{
    let bytes = cursor.left();
    let rest = test_runs(bytes, width, count)?;
    let runs = HybridReader::new(bytes, width, count).take(alloc, count)?;
    *cursor = Cursor::new(rest);
    Ok(runs)
}

/// The bytes behind the run that has the last of so many values.
fn test_runs(bytes: &[u8], width: u32, count: u64) -> Result<&[u8], ByteFault>
    requires { width ≤ 32 }
    ensures found { IfOk result (λ rest. (values : List ℕ) × (hybrid_at width count bytes.now ≡ Ok (values, rest.now))) }
    ensures refused { (fault : ByteFault) → result ≡ Err fault → hybrid_at width count bytes.now ≡ Err fault }
    ensures bytes { IsBytes bytes.now }
{
    let mut ahead = Cursor::new(bytes);
    let mut wanted = count;
    while wanted > 0 {
        wanted -= begin_run(&mut ahead, width, wanted)?.count;
    }
    Ok(ahead.left())
}

/// The run in front, as far as its values are wanted.
#[tactic(auto, unfolding(crate::specs::Hybrid::run_at))]
fn begin_run<'a>(ahead: &mut Cursor<'a>, width: u32, wanted: u64) -> Result<RunLeft<'a>, ByteFault>
    requires width { width ≤ 32 }
    requires wanted { 0 < wanted }
    ensures given { IfOk result (λ run. Begins width wanted ahead.old run ahead.new) }
    ensures refused { (fault : ByteFault) → result ≡ Err fault → run_at width ahead.old ≡ Err fault }
{
    let header = ahead.varint()?;
    let count = header / 2;
    if count == 0 {
        return Err(ByteFault::BadRun);
    }
    if header % 2 == 0 {
        let body = ahead.take(bytes_for(width))?;
        Ok(RunLeft {
            count: count.min(wanted),
            values: RunValues::Equal(low_first(body)),
        })
    } else {
        let body = take_groups(ahead, width, count)?;
        Ok(RunLeft {
            count: values_in(count, wanted),
            values: packed_values(body, width),
        })
    }
}

/// Values of a hybrid that was tested, taken run by run from the front. A contract sees the values that are left.
#[derive(Drop)]
pub struct HybridReader<'a> {
    width: u32,
    /// What is left of the run at hand.
    run: RunLeft<'a>,
    /// The bytes behind it.
    rest: Cursor<'a>,
    /// How many values are left in them.
    wanted: u64,
}

impl<'a> Model for HybridReader<'a> {
    ghost use Rattle.std.specs.Prelude.{ℕ, List, ◌≤◌, ◌++◌, IsOk};
    ghost use Rattle.lake_bytes.specs.Hybrid.{hybrid_at};
    ghost use Rattle.lake_bytes.specs.Tested.{left_of, IsRunHeld};

    ghost Value = { List ℕ };

    ghost view = { λ r. left_of r.width r.run r.wanted r.rest };

    ghost invariant = { λ r. (r.width ≤ 32) × IsRunHeld r.run × IsOk (hybrid_at r.width r.wanted r.rest) };
}

impl<'a> HybridReader<'a> {
    /// The values of a hybrid that [`hybrid_test`] passed.
    pub fn new(bytes: &'a [u8], width: u32, count: u64) -> HybridReader<'a>
        requires width { width ≤ 32 }
        requires tested { IsOk (hybrid_at width count bytes.now) }
        ensures { result ≡ values_or_none (hybrid_at width count bytes.now) }
    {
        HybridReader {
            width,
            run: RunLeft {
                count: 0,
                values: RunValues::Equal(0),
            },
            rest: Cursor::new(bytes),
            wanted: count,
        }
    }

    /// So many equal values, which stand in no bytes.
    pub fn equal(value: u64, count: u64) -> HybridReader<'a>
        ensures { result ≡ replicate count value }
    {
        HybridReader {
            width: 0,
            run: RunLeft {
                count,
                values: RunValues::Equal(value),
            },
            rest: Cursor::new(&[]),
            wanted: 0,
        }
    }

    /// Takes equal values from the front, at most so many; none only where none is left.
    pub fn next(&mut self, most: u64) -> Option<Run>
        requires { 0 < most }
        ensures none { result ≡ None → (self.old ≡ []) × (self.new ≡ []) }
        ensures some { IfSome result (λ run. (0 < run.count) × (run.count ≤ most)
            × (self.old ≡ replicate run.count run.value ++ self.new)) }
    {
        fill(&mut self.run, &mut self.rest, self.width, &mut self.wanted);
        if self.run.count == 0 {
            return None;
        }
        Some(take_equal(&mut self.run, self.width, most))
    }

    /// Takes so many values from the front, or all that are left, as runs of equal ones. Of what is left where memory
    /// runs out nothing is said. The time is linear in the runs, and in the packed values; the memory in the runs.
    pub fn take(&mut self, alloc: Global, count: u64) -> Result<Vec<Run>, AllocError>
        ensures taken { IfOk result (λ runs. values_of runs.items ≡ take count self.old) }
        ensures left { OnOk result (self.new ≡ drop count self.old) }
    {
        let mut runs = Vec::new(alloc);
        let mut wanted = count;
        while wanted > 0 {
            let Some(run) = self.next(wanted) else {
                return Ok(runs);
            };
            push_run(&mut runs, run.value, run.count)?;
            wanted -= run.count;
        }
        Ok(runs)
    }

    /// Passes so many values, or all that are left: how many of them are this one, where there are fewer than 2^64. The
    /// time is linear in the runs, and in the packed values.
    pub fn pass(&mut self, count: u64, value: u64) -> u64
        ensures found { length self.old < 2 ^ 64 → result ≡ count_by (λ x. x == value) (take count self.old) }
        ensures left { self.new ≡ drop count self.old }
    {
        let mut found = 0u64;
        let mut wanted = count;
        while wanted > 0 {
            let Some(run) = self.next(wanted) else {
                return found;
            };
            if run.value == value {
                found = found.saturating_add(run.count);
            }
            wanted -= run.count;
        }
        found
    }
}

/// Packed values. Those of no bits are all 0, however many they are.
fn packed_values(body: &[u8], width: u32) -> RunValues<'_>
    requires { width ≤ 32 }
    ensures values { (count : ℕ) → values_left width count result ≡ unpacked width count (low_first body.now) }
    ensures held { AreHeld result }
{
    if width == 0 {
        return RunValues::Equal(0);
    }
    RunValues::Packed(Bits::new(body))
}

/// Where no value is left of the run at hand, begins the next one, if there is one.
fn fill<'a>(run: &mut RunLeft<'a>, rest: &mut Cursor<'a>, width: u32, wanted: &mut u64)
    requires width { width ≤ 32 }
    requires held { IsRunHeld run.old }
    requires tested { IsOk (hybrid_at width wanted.old rest.old) }
    ensures held { IsRunHeld run.new }
    ensures tested { IsOk (hybrid_at width wanted.new rest.new) }
    ensures same { left_of width run.old wanted.old rest.old ≡ left_of width run.new wanted.new rest.new }
    ensures none { run.new.count ≡ 0 → left_of width run.new wanted.new rest.new ≡ [] }
{
    if run.count > 0 {
        return;
    }
    if *wanted == 0 {
        return;
    }
    match begin_run(rest, width, *wanted) {
        Ok(next) => {
            *wanted -= next.count;
            *run = next;
        }
        // It was tested.
        Err(_fault) => {}
    }
}

/// Equal values from the front of a run, at most so many.
fn take_equal(run: &mut RunLeft, width: u32, most: u64) -> Run
    requires width { width ≤ 32 }
    requires most { 0 < most }
    requires some { 0 < run.old.count }
    requires held { IsRunHeld run.old }
    ensures held { IsRunHeld run.new }
    ensures some { (0 < result.count) × (result.count ≤ most) }
    ensures values { run_values width run.old ≡ replicate result.count result.value ++ run_values width run.new }
{
    match &mut run.values {
        RunValues::Equal(value) => {
            let count = most.min(run.count);
            run.count -= count;
            Run {
                value: *value,
                count,
            }
        }
        RunValues::Packed(bits) => {
            run.count -= 1;
            Run {
                value: bits.next(width),
                count: 1,
            }
        }
    }
}
