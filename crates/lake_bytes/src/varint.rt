//! Unsigned varints: the groups of seven bits, read and written.

ghost use Rattle.std.specs.Prelude.{◌≡◌, ℕ, ◌<◌, ◌^◌, ◌++◌, List, OnOk, OnErr};
ghost use Rattle.lake_bytes.specs.Reading.{IsReading};
ghost use Rattle.outcomes.specs.Bytes.{IsBytes};
ghost use Rattle.lake_bytes.specs.Varint.{groups_at, groups_of, varint_at};

use crate::fault::ByteFault;
use std::alloc::AllocError;

/// The varint of at most `most` bytes in front, and the bytes behind it.
#[tactic(auto, unfolding(crate::specs::Varint::groups_at))]
pub(crate) fn read_groups(bytes: &[u8], most: u32) -> Result<(u64, &[u8]), ByteFault>
    ensures { IsReading (λ x. (x.0, x.1.now)) result (groups_at most bytes.now) }
{
    if most == 0 {
        return Err(ByteFault::VarintTooLong);
    }
    let Some((byte, behind)) = bytes.split_first() else {
        return Err(ByteFault::Short);
    };
    let byte = u64::from(*byte);
    if byte < 128 {
        return Ok((byte, behind));
    }
    let (high, rest) = read_groups(behind, most - 1)?;
    let low = byte - 128;
    if high > (u64::MAX - low) / 128 {
        return Err(ByteFault::OutOfRange);
    }
    Ok((low + 128 * high, rest))
}

/// Writes the groups of a number at the end, the low one first.
pub(crate) fn push_groups(out: &mut Vec<u8>, number: u64) -> Result<(), AllocError>
    ensures ok { (most : ℕ) → 0 < most → number < 128 ^ most → OnOk result (out.new.items ≡ out.old.items ++ groups_of most number) }
    ensures keeps { OnErr result ((more : List ℕ) × (out.new.items ≡ out.old.items ++ more)) }
{
    if number < 128 {
        out.push(number as u8)?;
        return Ok(());
    }
    out.push((128 + number % 128) as u8)?;
    push_groups(out, number / 128)
}

/// The varint in front, and the bytes behind it.
#[tactic(auto, unfolding(crate::specs::Varint::varint_at))]
pub(crate) fn read_varint(bytes: &[u8]) -> Result<(u64, &[u8]), ByteFault>
    ensures exact { IsReading (λ x. (x.0, x.1.now)) result (varint_at bytes.now) }
    ensures bytes { IsBytes bytes.now }
{
    read_groups(bytes, 10)
}
