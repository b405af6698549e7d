//! Writers of numbers, each at the end of a vector. Out of memory, the vector stays as it was.

ghost use Rattle.std.specs.Prelude.{◌≡◌, ◌++◌, OnOk, OnErr};
ghost use Rattle.std.specs.Int.{w32, w64, to_le_bytes, cast_unsigned};
ghost use Rattle.lake_bytes.specs.Varint.{varint_bytes};
ghost use Rattle.lake_bytes.specs.Zigzag.{zigzag};

use crate::varint::push_groups;
use std::alloc::AllocError;

/// Writes the shortest varint of a number (Thrift compact protocol, ULEB128).
pub fn write_varint(out: &mut Vec<u8>, number: u64) -> Result<(), AllocError>
    ensures ok { OnOk result (out.new.items ≡ out.old.items ++ varint_bytes number) }
    ensures err { OnErr result (out.new.items ≡ out.old.items) }
{
    let start = out.len();
    let written = push_groups(out, number);
    if written.is_err() {
        out.truncate(start);
    }
    written
}

/// Writes the shortest varint of a signed number by zigzag (Thrift compact protocol). A number of 16 or
/// 32 bits is written as the same number of 64 bits.
pub fn write_zigzag(out: &mut Vec<u8>, number: i64) -> Result<(), AllocError>
    ensures ok { OnOk result (out.new.items ≡ out.old.items ++ varint_bytes (zigzag number)) }
    ensures err { OnErr result (out.new.items ≡ out.old.items) }
{
    write_varint(out, zigzag_of(number))
}

/// The zigzag number of a signed number: 0, -1, 1, -2 are 0, 1, 2, 3.
fn zigzag_of(number: i64) -> u64
    ensures { result ≡ zigzag number }
{
    if number >= 0 {
        number as u64 * 2
    } else {
        (-(number + 1)) as u64 * 2 + 1
    }
}

/// Writes an unsigned number in four bytes, the low byte first.
pub fn write_u32_le(out: &mut Vec<u8>, number: u32) -> Result<(), AllocError>
    ensures ok { OnOk result (out.new.items ≡ out.old.items ++ to_le_bytes w32 number) }
    ensures err { OnErr result (out.new.items ≡ out.old.items) }
{
    out.extend_from_slice(&u32::to_le_bytes(number))
}

/// Writes a number in four bytes, in two's complement, the low byte first.
pub fn write_i32_le(out: &mut Vec<u8>, number: i32) -> Result<(), AllocError>
    ensures ok { OnOk result (out.new.items ≡ out.old.items ++ to_le_bytes w32 (cast_unsigned w32 number)) }
    ensures err { OnErr result (out.new.items ≡ out.old.items) }
{
    out.extend_from_slice(&i32::to_le_bytes(number))
}

/// Writes a number in eight bytes, in two's complement, the low byte first.
pub fn write_i64_le(out: &mut Vec<u8>, number: i64) -> Result<(), AllocError>
    ensures ok { OnOk result (out.new.items ≡ out.old.items ++ to_le_bytes w64 (cast_unsigned w64 number)) }
    ensures err { OnErr result (out.new.items ≡ out.old.items) }
{
    out.extend_from_slice(&i64::to_le_bytes(number))
}
