//! Thrift structs as text.

use byte_words::{LineFault, Transcript, tell_left};
use lake_bytes::Cursor;
use std::alloc::Allocator;
use thrift_core::{Field, MapEntry, ReadError, TValue, read_struct};

/// Tells the struct in front of the bytes, which is read in the memory of `heap`, or that this has no room for it; and
/// how many bytes are left.
pub fn tell_struct<H: Allocator + Copy>(
    heap: H,
    bytes: &[u8],
    told: &mut Transcript,
) -> Result<(), LineFault> {
    let mut cursor = Cursor::new(bytes);
    match read_struct(heap, &mut cursor) {
        Ok(tree) => {
            told.line("");
            tell_value(&tree, told);
        }
        Err(ReadError::Memory) => told.line("out of memory"),
        Err(error) => return Err(told.refused(&error)),
    }
    tell_left(&cursor, told);
    Ok(())
}

/// Tells a value: a struct as `{1: .., 2: ..}`, a list as `[.., ..]`, a map as `<..: ..>`, a binary as text in
/// quotes or as `x'..'`, a double as `double`.
#[cycle(show)]
pub fn tell_value<A: Allocator>(value: &TValue<A>, told: &mut Transcript) {
    match value {
        TValue::Bool(truth) => told.show("", truth),
        TValue::Int(number) => told.show("", number),
        TValue::Bytes(text) => told.quoted(text),
        TValue::List(members) => tell_members(members, told),
        TValue::Map(entries) => tell_entries(entries, told),
        TValue::Struct(fields) => tell_fields(fields, told),
        TValue::Skipped => told.put("double"),
    }
}

#[cycle(show)]
fn tell_members<A: Allocator>(members: &[TValue<A>], told: &mut Transcript) {
    let mut gap = "[";
    for member in members {
        told.put(gap);
        tell_value(member, told);
        gap = ", ";
    }
    told.put(if members.is_empty() { "[]" } else { "]" });
}

#[cycle(show)]
fn tell_entries<A: Allocator>(entries: &[MapEntry<A>], told: &mut Transcript) {
    let mut gap = "<";
    for entry in entries {
        told.put(gap);
        tell_value(&entry.key, told);
        told.put(": ");
        tell_value(&entry.value, told);
        gap = ", ";
    }
    told.put(if entries.is_empty() { "<>" } else { ">" });
}

#[cycle(show)]
fn tell_fields<A: Allocator>(fields: &[Field<A>], told: &mut Transcript) {
    let mut gap = "{";
    for field in fields {
        told.show(gap, &field.id);
        told.put(": ");
        tell_value(&field.value, told);
        gap = ", ";
    }
    told.put(if fields.is_empty() { "{}" } else { "}" });
}
