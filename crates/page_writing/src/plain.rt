//! Values in PLAIN, written.

ghost use Rattle.std.specs.Prelude.{◌≡◌, ◌<◌, ◌≤◌, ◌^◌, ◌++◌, length, map, OnOk, OnErr};
ghost use Rattle.row_core.specs.Conforms.{is_within};
ghost use Rattle.row_core.specs.Views.{value_view};
ghost use Rattle.shred.specs.Views.{borrowed_value};
ghost use Rattle.page_cells.specs.Plain.{behind_length};
ghost use Rattle.page_writing.specs.Internal.{BeginsWith};
ghost use Rattle.page_writing.specs.Writing.{bit_of, packed_bits, plain_bytes, value_bytes};

use lake_bytes::{write_i32_le, write_i64_le, write_u32_le};
use page_cells::PhysicalType;
use row_core::Value;
use std::alloc::AllocError;

/// How many bytes values take, or a number above the limit where they take more. The time is linear in the values.
pub(crate) fn plain_size(physical_type: PhysicalType, values: &[&Value], limit: u64) -> u64
    requires { limit < 2 ^ 32 }
    ensures size { length (plain_bytes physical_type (map borrowed_value values.now)) ≤ limit
        → result ≡ length (plain_bytes physical_type (map borrowed_value values.now)) }
    ensures above { limit < length (plain_bytes physical_type (map borrowed_value values.now)) → limit < result }
{
    if let PhysicalType::Boolean = physical_type {
        return (values.len() as u64).div_ceil(8);
    }
    let mut size = 0u64;
    for value in values {
        size += value_size(physical_type, value);
        if size > limit {
            return size;
        }
    }
    size
}

/// How many bytes a value takes that isn't a truth value.
fn value_size(physical_type: PhysicalType, value: &Value) -> u64
    ensures { result ≡ length (value_bytes physical_type (value_view value.now)) }
{
    match (physical_type, value) {
        (PhysicalType::Int32, Value::Int(number)) if is_int32(*number) => 4,
        (PhysicalType::Int64, Value::Int(_)) => 8,
        (PhysicalType::ByteArray, Value::Text(text)) => 4 + text.len() as u64,
        (PhysicalType::ByteArray, Value::Bytes(bytes)) => 4 + bytes.len() as u64,
        _ => 0,
    }
}

/// Writes values, one behind the other. Of a value of another type nothing is written; among truth values, the bit 0.
/// The time is linear in the bytes.
#[tactic(auto, using(crate::proofs::Kept::keeps_each))]
pub(crate) fn write_plain(
    out: &mut Vec<u8>,
    physical_type: PhysicalType,
    values: &[&Value],
) -> Result<(), AllocError>
    requires { length (plain_bytes physical_type (map borrowed_value values.now)) ≤ 67108864 }
    ensures ok { OnOk result (out.new.items ≡ out.old.items ++ plain_bytes physical_type (map borrowed_value values.now)) }
    ensures keeps { OnErr result (BeginsWith out.old.items out.new.items) }
{
    if let PhysicalType::Boolean = physical_type {
        return write_bits(out, values);
    }
    for value in values {
        write_value(out, physical_type, value)?;
    }
    Ok(())
}

/// Whether a number fits four bytes.
fn is_int32(number: i64) -> bool
    ensures { result ≡ is_within (2 ^ 31) number }
{
    -2_147_483_648 <= number && number <= 2_147_483_647
}

/// Writes a value that isn't a truth value.
fn write_value(
    out: &mut Vec<u8>,
    physical_type: PhysicalType,
    value: &Value,
) -> Result<(), AllocError>
    requires { length (value_bytes physical_type (value_view value.now)) ≤ 67108864 }
    ensures ok { OnOk result (out.new.items ≡ out.old.items ++ value_bytes physical_type (value_view value.now)) }
    ensures keeps { OnErr result (BeginsWith out.old.items out.new.items) }
{
    match (physical_type, value) {
        (PhysicalType::Int32, Value::Int(number)) if is_int32(*number) => {
            write_i32_le(out, *number as i32)
        }
        (PhysicalType::Int64, Value::Int(number)) => write_i64_le(out, *number),
        (PhysicalType::ByteArray, Value::Text(text)) => write_content(out, text.as_bytes()),
        (PhysicalType::ByteArray, Value::Bytes(bytes)) => write_content(out, bytes),
        _ => Ok(()),
    }
}

/// Writes bytes behind their length in four bytes.
pub(crate) fn write_content(out: &mut Vec<u8>, content: &[u8]) -> Result<(), AllocError>
    requires { length content.now < 2 ^ 32 }
    ensures ok { OnOk result (out.new.items ≡ out.old.items ++ behind_length content.now) }
    ensures keeps { OnErr result (BeginsWith out.old.items out.new.items) }
{
    write_u32_le(out, content.len() as u32)?;
    out.extend_from_slice(content)
}

/// Writes truth values, eight a byte, the first one in the low bit.
fn write_bits(out: &mut Vec<u8>, values: &[&Value]) -> Result<(), AllocError>
    ensures ok { OnOk result (out.new.items
        ≡ out.old.items ++ plain_bytes PhysicalType.Boolean (map borrowed_value values.now)) }
    ensures keeps { OnErr result (BeginsWith out.old.items out.new.items) }
{
    for index in 0..values.len().div_ceil(8) {
        let start = 8 * index;
        let end = values.len().min(start + 8);
        out.push(packed_byte(&values[start..end]))?;
    }
    Ok(())
}

/// The byte of at most eight truth values.
fn packed_byte(values: &[&Value]) -> u8
    requires { length values.now ≤ 8 }
    ensures { result ≡ packed_bits (map borrowed_value values.now) }
{
    let mut byte = 0u8;
    for behind in 0..values.len() {
        byte = 2 * byte + bit_of(values[values.len() - 1 - behind]);
    }
    byte
}

fn bit_of(value: &Value) -> u8
    ensures bit { result ≡ bit_of (value_view value.now) }
    ensures one { result ≤ 1 }
{
    u8::from(matches!(value, Value::Bool(true)))
}
