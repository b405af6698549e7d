//! What a table asks of the values of a page.

ghost use Rattle.std.specs.Prelude.{◌≡◌, ◌&&◌, ℕ, List, Ok, true, false};
ghost use Rattle.std.specs.List.{list_all, list_any};
ghost use Rattle.std.specs.Str.{is_utf8};
ghost use Rattle.row_core.specs.Conforms.{is_leaf_value};
ghost use Rattle.row_core.specs.Rows.{Value, whole};
ghost use Rattle.page_cells.specs.Texts.{is_proper, is_too_long};
ghost use Rattle.page_cells.specs.Plain.{plain_at, values_at};
ghost use Rattle.page_cells.specs.Internal.{is_between};
ghost use Rattle.page_cells.specs.Types.{primitive_of, physical_type};

use crate::plain::content;
use crate::types::{LeafType, PhysicalType};
use lake_bytes::Cursor;

/// Whether the texts among so many values, which stand in these bytes, are UTF-8.
pub fn are_proper(leaf_type: LeafType, count: u64, bytes: &[u8]) -> bool
    ensures { (values : List Value) (rest : List ℕ) → plain_at leaf_type count bytes.now ≡ Ok (values, rest)
        → result ≡ list_all is_proper values }
{
    match leaf_type {
        LeafType::String => are_texts(count, &mut Cursor::new(bytes)),
        _ => true,
    }
}

fn are_texts(count: u64, cursor: &mut Cursor) -> bool
    ensures { (values : List Value) (rest : List ℕ) → values_at LeafType.String count cursor.old ≡ Ok (values, rest)
        → result ≡ list_all is_proper values }
{
    for _value in 0..count {
        let Ok(content) = content(cursor) else {
            return false;
        };
        if !is_text(content) {
            return false;
        }
    }
    true
}

/// Whether bytes are a text in UTF-8.
fn is_text(content: &[u8]) -> bool
    ensures { result ≡ is_utf8 content.now }
{
    match str::from_utf8(content) {
        Ok(_text) => true,
        Err(_fault) => false,
    }
}

/// Whether so many values, which stand in these bytes and of which none is too long, are in their type's range.
pub fn are_in_range(leaf_type: LeafType, count: u64, bytes: &[u8]) -> bool
    ensures { (values : List Value) (rest : List ℕ) → plain_at leaf_type count bytes.now ≡ Ok (values, rest)
        → list_any is_too_long values ≡ false → result ≡ list_all (is_leaf_value (primitive_of leaf_type)) values }
{
    match leaf_type {
        LeafType::Byte => are_within(i32::from(i8::MIN), i32::from(i8::MAX), count, bytes),
        LeafType::Short => are_within(i32::from(i16::MIN), i32::from(i16::MAX), count, bytes),
        _ => true,
    }
}

/// Whether so many numbers of four bytes are neither below the one bound nor above the other.
fn are_within(least: i32, most: i32, count: u64, bytes: &[u8]) -> bool
    ensures { (type : LeafType) → physical_type type ≡ PhysicalType.Int32
        → (values : List Value) (rest : List ℕ) → values_at type count bytes.now ≡ Ok (values, rest)
        → result ≡ list_all (is_between least most) values }
{
    let mut cursor = Cursor::new(bytes);
    for _value in 0..count {
        let Ok(number) = cursor.i32_le() else {
            return false;
        };
        if !is_between(least, most, number) {
            return false;
        }
    }
    true
}

/// Whether a number is neither below the one bound nor above the other.
fn is_between(least: i32, most: i32, number: i32) -> bool
    ensures { result ≡ is_between least most (whole number) }
{
    least <= number && number <= most
}
