//! Trees, written in the shortest forms.

ghost use Rattle.std.specs.Prelude.{◌≡◌, ◌↔◌, IsTrue, List, ℕ, length, ◌<◌, ◌≤◌, ◌++◌, Ok, pos, option_map, IfOk, OnOk};
ghost use Rattle.lake_bytes.specs.Varint.{varint_bytes};
ghost use Rattle.thrift_core.specs.Form.{form_view, field_form_view, field_form_views, form_at, number_of};
ghost use Rattle.thrift_values.specs.Tree.{trees_of, entries_of, fields_of, depth, nodes};
ghost use Rattle.thrift_values.specs.View.{view, views, entry_views, field_view, field_views};
ghost use Rattle.thrift_core.specs.Writing.{integer_bytes, list_header_bytes, map_header_bytes, field_header_bytes, field_number, written, written_members, written_entries, written_field, written_fields, wire_of};
ghost use Rattle.thrift_core.specs.Writable.{EachValue, IdsRise, SizeFits, IsKept, HasTypes};
ghost use Rattle.thrift_core.specs.Reading.{struct_at};
ghost use Rattle.thrift_core.specs.Spelling.{Spells};
ghost use Rattle.thrift_core.specs.SpellsAs.{SpellsAs};
ghost use Rattle.thrift_core.specs.declared.wire.WireType.TheVariants as wire;

use crate::form::{FieldForm, Form};
use lake_bytes::{write_varint, write_zigzag};
use std::alloc::{AllocError, Allocator, Global};
use thrift_values::{Field, MapEntry, TValue};

/// The bytes of a struct (Thrift compact protocol, "Struct encoding"), with the types that the form names.
///
/// Each form is the shortest: varints without needless bytes, a size below 15 and a rise of an id of 1 to 15 in their
/// headers; a first id at or below 0 stands behind its header. A boolean in a list or a map is 1 or 2, and its type
/// there 2.
///
/// The form may name more fields than the tree has, and an id may be 0 or negative. [`crate::is_writable`] tests the
/// conditions.
///
/// The tree may lie in any allocator's memory; the bytes lie in that of `alloc`.
///
/// The time is linear in the bytes that are written, and in the fields that the form names for each field.
pub fn write_struct<A: Allocator>(
    alloc: Global,
    tree: &TValue<A>,
    form: &Form,
) -> Result<Vec<u8>, AllocError>
    // In each struct the ids rise.
    requires ids_rise { EachValue IdsRise (view tree.now) }
    // Each value is of the type named for it, and each id of a field stands in the form.
    requires types_named { HasTypes (form_view form.now) (view tree.now) }
    // Texts, lists and maps are shorter than 2 ^ 31.
    requires sizes_fit { EachValue SizeFits (view tree.now) }
    requires nothing_skipped { EachValue IsKept (view tree.now) }
    // The form is that of a struct.
    requires is_struct { wire_of (form_view form.now) ≡ wire.Struct }
    // The bytes spell the tree.
    ensures spells { IfOk result (λ bytes. Spells wire.Struct bytes.items (view tree.now)) }
    // They spell it with the types that the form names.
    ensures with_these_types { IfOk result (λ bytes. SpellsAs (form_view form.now) bytes.items (view tree.now)) }
    // No bytes that spell the tree with these types are fewer.
    ensures shortest { IfOk result (λ bytes. (other : List ℕ) → SpellsAs (form_view form.now) other (view tree.now)
        → length bytes.items ≤ length other) }
    // Whatever follows them, they are read again as the tree, if it keeps the limits.
    ensures read_again { depth (view tree.now) ≤ 32 → nodes (view tree.now) ≤ 262144
        → IfOk result (λ bytes. (rest : List ℕ) → struct_at (bytes.items ++ rest) ≡ Ok (view tree.now, rest)) }
    // Which bytes they are.
    ensures exact { IfOk result (λ bytes. bytes.items ≡ written (form_view form.now) (view tree.now)) }
{
    struct_bytes(alloc, tree, form)
}

/// The bytes of a struct, as its definition has them.
fn struct_bytes<A: Allocator>(
    alloc: Global,
    tree: &TValue<A>,
    form: &Form,
) -> Result<Vec<u8>, AllocError>
    ensures { IfOk result (λ bytes. bytes.items ≡ written (form_view form.now) (view tree.now)) }
{
    let mut out = Vec::new(alloc);
    write_value(&mut out, tree, form)?;
    Ok(out)
}

/// A whole number, in the bytes of its type.
fn write_integer(out: &mut Vec<u8>, form: &Form, number: i64) -> Result<(), AllocError>
    ensures { OnOk result (out.new.items ≡ out.old.items ++ integer_bytes (form_view form.now) number) }
{
    if let Form::Byte = form {
        out.push((number.cast_unsigned() % 256) as u8)?;
        return Ok(());
    }
    write_zigzag(out, number)
}

#[tactic(auto, unfolding(crate::specs::Writing::list_header_bytes))]
fn write_list_header(out: &mut Vec<u8>, number: u8, size: usize) -> Result<(), AllocError>
    requires { number < 16 }
    ensures { OnOk result (out.new.items ≡ out.old.items ++ list_header_bytes number size) }
{
    if size < 15 {
        out.push(16 * size as u8 + number)?;
        return Ok(());
    }
    out.push(240 + number)?;
    write_varint(out, size as u64)
}

#[tactic(auto, unfolding(crate::specs::Writing::map_header_bytes))]
fn write_map_header(out: &mut Vec<u8>, key: u8, value: u8, size: usize) -> Result<(), AllocError>
    requires key_fits { key < 16 }
    requires value_fits { value < 16 }
    ensures { OnOk result (out.new.items ≡ out.old.items ++ map_header_bytes key value size) }
{
    if size == 0 {
        out.push(0)?;
        return Ok(());
    }
    write_varint(out, size as u64)?;
    out.push(16 * key + value)?;
    Ok(())
}

#[tactic(auto, unfolding(crate::specs::Writing::field_header_bytes))]
fn write_field_header(out: &mut Vec<u8>, last: i16, id: i16, number: u8) -> Result<(), AllocError>
    requires { number < 16 }
    ensures { OnOk result (out.new.items ≡ out.old.items ++ field_header_bytes last id number) }
{
    let rise = id.abs_diff(last);
    if id <= last || rise > 15 {
        out.push(number)?;
        return write_zigzag(out, i64::from(id));
    }
    out.push(16 * rise as u8 + number)?;
    Ok(())
}

/// The number of a field's type, which for a boolean is its value.
fn number_in_field<A: Allocator>(form: &Form, value: &TValue<A>) -> u8
    ensures number { result ≡ field_number (form_view form.now) (view value.now) }
    ensures fits { result < 16 }
{
    match value {
        TValue::Bool(true) => 1,
        TValue::Bool(false) => 2,
        _ => form.number(),
    }
}

/// The type of the field of this id.
pub(crate) fn find_form(forms: &[FieldForm], id: i16) -> Option<&Form>
    ensures { option_map (λ s. form_view s.now) result ≡ form_at id (field_form_views forms.now) }
{
    for field in forms {
        if is_field(field, id) {
            return Some(&field.form);
        }
    }
    None
}

fn is_field(field: &FieldForm, id: i16) -> bool
    ensures { IsTrue result ↔ ((field_form_view field.now).0 ≡ id) }
{
    field.id == id
}

/// A value, with its types. Where a value is of another type than the one named for it, nothing is written
/// for a list, a map or a struct.
#[cycle(write)]
fn write_value<A: Allocator>(
    out: &mut Vec<u8>,
    value: &TValue<A>,
    form: &Form,
) -> Result<(), AllocError>
    ensures { OnOk result (out.new.items ≡ out.old.items ++ written (form_view form.now) (view value.now)) }
{
    match value {
        TValue::Bool(true) => out.push(1)?,
        TValue::Bool(false) => out.push(2)?,
        TValue::Int(number) => write_integer(out, form, *number)?,
        TValue::Bytes(text) => write_binary(out, text)?,
        TValue::List(members) => {
            if let Some(member) = form.member() {
                write_members(out, members, member)?;
            }
        }
        TValue::Map(entries) => {
            if let Some((key, value)) = form.entry() {
                write_entries(out, entries, key, value)?;
            }
        }
        TValue::Struct(fields) => {
            if let Some(forms) = form.fields() {
                write_fields(out, fields, forms)?;
            }
        }
        TValue::Skipped => {}
    }
    Ok(())
}

fn write_binary(out: &mut Vec<u8>, text: &[u8]) -> Result<(), AllocError>
    ensures { OnOk result (out.new.items ≡ out.old.items ++ (varint_bytes (length text.now) ++ text.now)) }
{
    write_varint(out, text.len() as u64)?;
    out.extend_from_slice(text)
}

#[cycle(write)]
fn write_members<A: Allocator>(
    out: &mut Vec<u8>,
    members: &[TValue<A>],
    form: &Form,
) -> Result<(), AllocError>
    ensures { OnOk result (out.new.items ≡ out.old.items ++ (list_header_bytes (number_of (form_view form.now)) (length members.now) ++ written_members (form_view form.now) (trees_of (views members.now)))) }
{
    write_list_header(out, form.number(), members.len())?;
    for member in members {
        write_value(out, member, form)?;
    }
    Ok(())
}

#[cycle(write)]
fn write_entries<A: Allocator>(
    out: &mut Vec<u8>,
    entries: &[MapEntry<A>],
    key: &Form,
    value: &Form,
) -> Result<(), AllocError>
    ensures { OnOk result (out.new.items ≡ out.old.items ++ (map_header_bytes (number_of (form_view key.now)) (number_of (form_view value.now)) (length entries.now) ++ written_entries (form_view key.now) (form_view value.now) (entries_of (entry_views entries.now)))) }
{
    write_map_header(out, key.number(), value.number(), entries.len())?;
    for entry in entries {
        write_value(out, &entry.key, key)?;
        write_value(out, &entry.value, value)?;
    }
    Ok(())
}

#[cycle(write)]
fn write_fields<A: Allocator>(
    out: &mut Vec<u8>,
    fields: &[Field<A>],
    forms: &[FieldForm],
) -> Result<(), AllocError>
    ensures { OnOk result (out.new.items ≡ out.old.items ++ written_fields (field_form_views forms.now) (pos 0) (fields_of (field_views fields.now))) }
{
    let mut last = 0;
    for field in fields {
        write_field(out, field, forms, last)?;
        last = field.id;
    }
    out.push(0)?;
    Ok(())
}

#[cycle(write)]
fn write_field<A: Allocator>(
    out: &mut Vec<u8>,
    field: &Field<A>,
    forms: &[FieldForm],
    last: i16,
) -> Result<(), AllocError>
    ensures { OnOk result (out.new.items ≡ out.old.items ++ written_field (field_form_views forms.now) last (field_view field.now).0 (field_view field.now).1) }
{
    let Some(form) = find_form(forms, field.id) else {
        return Ok(());
    };
    let number = number_in_field(form, &field.value);
    write_field_header(out, last, field.id, number)?;
    match field.value {
        TValue::Bool(_) => Ok(()),
        _ => write_value(out, &field.value, form),
    }
}
