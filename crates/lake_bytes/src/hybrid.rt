//! What runs of a hybrid are made of: groups of packed values, bits taken from bytes, equal values.

ghost use Rattle.std.specs.Prelude.{◌≡◌, ◌≢◌, ◌⊎◌, ℕ, List, [], ◌*◌, ◌/◌, ◌%◌, ◌^◌, ◌<◌, ◌≤◌, ◌++◌, length, min, take, replicate, Ok, Err, IfOk, IsOk, OnErr, OnOk};
ghost use Rattle.lake_bytes.specs.Hybrid.{HoldsValues, Reads, bytes_for, hybrid_at, low_first, run_at, unpacked, values_of};
ghost use Rattle.lake_bytes.specs.Internal.{IsHeld, number_left, says};
ghost use Rattle.outcomes.specs.Outcome.{Gives};
ghost use Rattle.lake_bytes.specs.Reading.{ReadingGives as GivesFront, bytes_at};
ghost use Rattle.outcomes.specs.Bytes.{IsBytes};

use crate::cursor::Cursor;
use crate::fault::ByteFault;
use crate::run::Run;
use std::alloc::{AllocError, Global};

/// How many whole bytes a value of so many bits takes.
pub(crate) fn bytes_for(width: u32) -> usize
    requires { width ≤ 32 }
    ensures { result ≡ bytes_for width }
{
    (width as usize + 7) / 8
}

/// The bytes of so many groups of eight values. B1 where they aren't all there.
pub(crate) fn take_groups<'a>(
    cursor: &mut Cursor<'a>,
    width: u32,
    groups: u64,
) -> Result<&'a [u8], ByteFault>
    requires { width ≤ 32 }
    ensures { GivesFront (λ bytes. bytes.now) (bytes_at (groups * width) cursor.old) cursor.old result cursor.new }
{
    let width = u64::from(width);
    if width > 0 && groups > cursor.left().len() as u64 / width {
        return Err(ByteFault::Short);
    }
    cursor.take((groups * width) as usize)
}

/// How many values so many groups give where so many are wanted.
pub(crate) fn values_in(groups: u64, wanted: u64) -> u64
    ensures { result ≡ min wanted (8 * groups) }
{
    if groups > wanted / 8 {
        wanted
    } else {
        8 * groups
    }
}

/// The number that at most four bytes stand for, the low byte first.
pub(crate) fn low_first(bytes: &[u8]) -> u64
    requires { length bytes.now ≤ 4 }
    ensures value { result ≡ low_first bytes.now }
    ensures small { result < 256 ^ length bytes.now }
{
    let Some((byte, rest)) = bytes.split_first() else {
        return 0;
    };
    u64::from(*byte) + 256 * low_first(rest)
}

/// Adds equal values, to the last run where they are equal to its own.
pub(crate) fn push_run(runs: &mut Vec<Run>, value: u64, count: u64) -> Result<(), AllocError>
    ensures { OnOk result (values_of runs.new.items ≡ values_of runs.old.items ++ replicate count value) }
{
    if let Some(last) = runs.last_mut() {
        if last.value == value && last.count <= u64::MAX - count {
            last.count += count;
            return Ok(());
        }
    }
    runs.push(Run { value, count })?;
    Ok(())
}

/// So many packed values of `width` bits, 0 to 32, each from the low bit of the bytes on, as runs of equal ones (Apache
/// Parquet, "Bit-packed"; truth values in PLAIN are packed so, in one bit each). Behind the last byte there are zeros.
/// The time is linear in the values, and constant at a width of 0.
pub fn unpack(alloc: Global, bytes: &[u8], width: u32, count: u64) -> Result<Vec<Run>, AllocError>
    requires { width ≤ 32 }
    ensures { IfOk result (λ runs. values_of runs.items ≡ unpacked width count (low_first bytes.now)) }
{
    let mut runs = Vec::new(alloc);
    add_packed(bytes, width, count, &mut runs)?;
    Ok(runs)
}

/// Adds so many packed values, to the last run where they are equal to its own.
fn add_packed(body: &[u8], width: u32, count: u64, runs: &mut Vec<Run>) -> Result<(), AllocError>
    requires { width ≤ 32 }
    ensures { OnOk result (values_of runs.new.items
        ≡ values_of runs.old.items ++ unpacked width count (low_first body.now)) }
{
    if width == 0 {
        return push_run(runs, 0, count);
    }
    let mut bits = Bits::new(body);
    for _index in 0..count {
        let value = bits.next(width);
        push_run(runs, value, 1)?;
    }
    Ok(())
}

/// Bits that are taken from bytes, the low bit first.
#[derive(Drop)]
pub(crate) struct Bits<'a> {
    /// The bytes that weren't looked at.
    rest: &'a [u8],
    /// The bits that were taken from bytes and not yet given, as a number.
    buffer: u64,
    /// How many they are.
    held: u32,
}

impl<'a> Bits<'a> {
    pub(crate) fn new(bytes: &'a [u8]) -> Bits<'a>
        ensures left { number_left result ≡ low_first bytes.now }
        ensures held { IsHeld result }
    {
        Bits {
            rest: bytes,
            buffer: 0,
            held: 0,
        }
    }

    /// The next so many bits as a number. Behind the last byte there are zeros.
    pub(crate) fn next(&mut self, width: u32) -> u64
        requires width { width ≤ 32 }
        requires held { IsHeld self.old }
        ensures value { result ≡ number_left self.old % 2 ^ width }
        ensures left { number_left self.new ≡ number_left self.old / 2 ^ width }
        ensures held { IsHeld self.new }
    {
        self.fill(width);
        let rest = self.buffer >> width;
        let value = self.buffer - (rest << width);
        self.buffer = rest;
        self.held = self.held.saturating_sub(width);
        value
    }

    /// Takes bytes until so many bits are held, or none is left.
    fn fill(&mut self, width: u32)
        requires width { width ≤ 32 }
        requires held { IsHeld self.old }
        ensures left { number_left self.new ≡ number_left self.old }
        ensures held { IsHeld self.new }
        ensures enough { (width ≤ self.new.held) ⊎ (self.new.rest.now ≡ []) }
    {
        while self.held < width {
            let Some((byte, rest)) = self.rest.split_first() else {
                return;
            };
            self.buffer += u64::from(*byte) << self.held;
            self.held += 8;
            self.rest = rest;
        }
    }
}
