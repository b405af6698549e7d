//! Values in PLAIN, read.

ghost use Rattle.std.specs.Prelude.{◌≡◌, ℕ, List, ◌*◌, ◌≤◌, ◌++◌, replicate, Ok, Err, IfOk, OnOk, true};
ghost use Rattle.lake_bytes.specs.Reading.{bytes_at};
ghost use Rattle.row_core.specs.Rows as rows;
ghost use Rattle.row_core.specs.Views.{row_views, value_view};
ghost use Rattle.page_cells.specs.Outcome.{PassesValues, AddsValues, Takes};
ghost use Rattle.page_cells.specs.Texts.{is_proper};
ghost use Rattle.page_cells.specs.Internal.{TakesValue};
ghost use Rattle.page_cells.specs.Plain.{binary_at, bytes_for_bits, content_at, int32_at, int64_at, plain_at, text_at, truths_at, value_at, values_at};

use crate::fault::bad_bytes;
use crate::types::{LeafType, PhysicalType};
use lake_bytes::{ByteFault, Cursor, unpack};
use parquet_footer::{FileError, FileFault};
use row_core::{MAX_BYTES, Value};
use std::alloc::{AllocError, Global};

/// Passes so many values in front of the cursor: whether one of them is a text or bytes of over 1 MiB. B1 where they
/// aren't all there. The time is constant but for texts and bytes, where it is linear in their number.
pub fn pass_values(cursor: &mut Cursor, leaf_type: LeafType, count: u64) -> Result<bool, ByteFault>
    ensures { PassesValues (plain_at leaf_type count cursor.old) result cursor.new }
{
    match leaf_type.physical_type() {
        PhysicalType::Boolean => pass_bytes(cursor, bytes_for_bits(count), 1)?,
        PhysicalType::Int32 => pass_bytes(cursor, count, 4)?,
        PhysicalType::Int64 => pass_bytes(cursor, count, 8)?,
        PhysicalType::ByteArray => return pass_contents(cursor, count),
    }
    Ok(false)
}

/// How many bytes so many bits take.
fn bytes_for_bits(count: u64) -> u64
    ensures { result ≡ bytes_for_bits count }
{
    count / 8 + u64::from(count % 8 > 0)
}

/// Passes so many values of so many bytes each.
fn pass_bytes(cursor: &mut Cursor, count: u64, size: u64) -> Result<(), ByteFault>
    requires { 1 ≤ size }
    ensures passed { IfOk result (λ _. (bytes : List ℕ) ×
        (bytes_at (count * size) cursor.old ≡ Ok (bytes, cursor.new))) }
    ensures short { (fault : ByteFault) → result ≡ Err fault → bytes_at (count * size) cursor.old ≡ Err fault }
{
    if count > cursor.left().len() as u64 / size {
        return Err(ByteFault::Short);
    }
    cursor.take((count * size) as usize)?;
    Ok(())
}

/// What stands behind its length in four bytes.
#[tactic(auto, unfolding(crate::specs::Plain::content_at))]
pub(crate) fn content<'a>(cursor: &mut Cursor<'a>) -> Result<&'a [u8], ByteFault>
    ensures { Takes (λ content. content.now) (content_at cursor.old) result cursor.new }
{
    let size = cursor.u32_le()?;
    cursor.take(size as usize)
}

/// Passes so many texts or bytes: whether one is over 1 MiB.
fn pass_contents(cursor: &mut Cursor, count: u64) -> Result<bool, ByteFault>
    ensures text { PassesValues (values_at LeafType.String count cursor.old) result cursor.new }
    ensures binary { PassesValues (values_at LeafType.Binary count cursor.old) result cursor.new }
{
    let mut is_too_long = false;
    for _value in 0..count {
        let content = content(cursor)?;
        is_too_long = is_too_long || content.len() > MAX_BYTES;
    }
    Ok(is_too_long)
}

/// Adds so many values, which stand in front of the bytes and whose texts are UTF-8. The time is linear in them.
pub(crate) fn add_values(
    alloc: Global,
    leaf_type: LeafType,
    count: u64,
    bytes: &[u8],
    out: &mut Vec<Value>,
) -> Result<(), FileError>
    ensures { AddsValues (plain_at leaf_type count bytes.now) (row_views out.old.items) result
        (row_views out.new.items) }
{
    let mut cursor = Cursor::new(bytes);
    match leaf_type {
        LeafType::Boolean => add_truths(alloc, count, &mut cursor, out),
        _ => add_each(alloc, leaf_type, count, &mut cursor, out),
    }
}

#[tactic(auto, unfolding(crate::specs::Plain::truths_at))]
fn add_truths(
    alloc: Global,
    count: u64,
    cursor: &mut Cursor,
    out: &mut Vec<Value>,
) -> Result<(), FileError>
    ensures { AddsValues (truths_at count cursor.old) (row_views out.old.items) result (row_views out.new.items) }
{
    let packed = match cursor.take(bytes_for_bits(count) as usize) {
        Ok(packed) => packed,
        Err(fault) => return Err(bad_bytes(fault)),
    };
    let runs = unpack(alloc, packed, 1, count)?;
    for run in &runs {
        add_truth(run.value == 1, run.count, out)?;
    }
    Ok(())
}

/// Adds a truth value so often.
pub(crate) fn add_truth(value: bool, count: u64, out: &mut Vec<Value>) -> Result<(), AllocError>
    ensures { OnOk result (row_views out.new.items ≡ row_views out.old.items ++ replicate count (rows.truth value)) }
{
    for _value in 0..count {
        out.push(Value::Bool(value))?;
    }
    Ok(())
}

/// Adds values one by one.
fn add_each(
    alloc: Global,
    leaf_type: LeafType,
    count: u64,
    cursor: &mut Cursor,
    out: &mut Vec<Value>,
) -> Result<(), FileError>
    ensures { AddsValues (values_at leaf_type count cursor.old) (row_views out.old.items) result
        (row_views out.new.items) }
{
    for _value in 0..count {
        let value = value(alloc, leaf_type, cursor)?;
        out.push(value)?;
    }
    Ok(())
}

/// The value in front, which isn't a truth value. A text has to be UTF-8.
fn value(alloc: Global, leaf_type: LeafType, cursor: &mut Cursor) -> Result<Value, FileError>
    ensures { TakesValue (value_at leaf_type cursor.old) result cursor.new }
{
    match leaf_type {
        LeafType::Boolean => Err(bad_bytes(ByteFault::Short)),
        LeafType::Byte | LeafType::Short | LeafType::Integer | LeafType::Date => {
            int32(cursor).map_err(bad_bytes)
        }
        LeafType::Long => int64(cursor).map_err(bad_bytes),
        LeafType::String => text(alloc, cursor),
        LeafType::Binary => binary(alloc, cursor),
    }
}

/// The whole number in front, in four bytes.
#[tactic(auto, unfolding(crate::specs::Plain::int32_at))]
fn int32(cursor: &mut Cursor) -> Result<Value, ByteFault>
    ensures taken { Takes value_view (int32_at cursor.old) result cursor.new }
    ensures proper { IfOk result (λ number. is_proper (value_view number) ≡ true) }
{
    let number = cursor.i32_le()?;
    Ok(Value::Int(i64::from(number)))
}

/// The whole number in front, in eight bytes.
#[tactic(auto, unfolding(crate::specs::Plain::int64_at))]
fn int64(cursor: &mut Cursor) -> Result<Value, ByteFault>
    ensures taken { Takes value_view (int64_at cursor.old) result cursor.new }
    ensures proper { IfOk result (λ number. is_proper (value_view number) ≡ true) }
{
    let number = cursor.i64_le()?;
    Ok(Value::Int(number))
}

#[tactic(auto, unfolding(crate::specs::Plain::text_at))]
fn text(alloc: Global, cursor: &mut Cursor) -> Result<Value, FileError>
    ensures { TakesValue (text_at cursor.old) result cursor.new }
{
    let content = match content(cursor) {
        Ok(content) => content,
        Err(fault) => return Err(bad_bytes(fault)),
    };
    let Ok(text) = str::from_utf8(content) else {
        return Err(FileFault::NotUtf8.into());
    };
    Ok(Value::Text(String::from_str(alloc, text)?))
}

#[tactic(auto, unfolding(crate::specs::Plain::binary_at))]
fn binary(alloc: Global, cursor: &mut Cursor) -> Result<Value, FileError>
    ensures { TakesValue (binary_at cursor.old) result cursor.new }
{
    let content = match content(cursor) {
        Ok(content) => content,
        Err(fault) => return Err(bad_bytes(fault)),
    };
    Ok(Value::Bytes(Vec::from_slice(alloc, content)?))
}
