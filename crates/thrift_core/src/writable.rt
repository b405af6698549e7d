//! Whether a tree can be written with the types that a form names.

ghost use Rattle.std.specs.Prelude.{◌≡◌, ◌≤ℤ◌, ℕ, IsTrue, ◌&&◌, nat_lt, length, negsuc, pos};
ghost use Rattle.thrift_core.specs.Form.{form_view, field_form_views, form_at};
ghost use Rattle.thrift_values.specs.Tree.{trees_of, entries_of, fields_of};
ghost use Rattle.thrift_values.specs.View.{view, views, entry_view, entry_views, field_view, field_views};
ghost use Rattle.thrift_core.specs.Writable.{EachValue, IdsRise, SizeFits, IsKept, HasTypes, for_some, integer_fits, is_between, is_writable, are_writable, entries_are_writable, fields_are_writable};

use crate::form::{FieldForm, Form};
use crate::writing::find_form;
use std::alloc::Allocator;
use thrift_values::{Field, MapEntry, TValue};

/// The sizes of texts, lists and maps that are written are below this.
const SIZE_END: usize = 1 << 31;

/// Whether a tree can be written with the types that a form names, as [`crate::write_struct`] needs it. The time is
/// linear in the tree's values, and in the fields that the form names for each field.
pub fn is_writable<A: Allocator>(tree: &TValue<A>, form: &Form) -> bool
    ensures ids_rise { IsTrue result → EachValue IdsRise (view tree.now) }
    ensures types_named { IsTrue result → HasTypes (form_view form.now) (view tree.now) }
    ensures sizes_fit { IsTrue result → EachValue SizeFits (view tree.now) }
    ensures nothing_skipped { IsTrue result → EachValue IsKept (view tree.now) }
    // Every tree that can be written passes.
    ensures only { EachValue IdsRise (view tree.now) → HasTypes (form_view form.now) (view tree.now)
        → EachValue SizeFits (view tree.now) → EachValue IsKept (view tree.now) → IsTrue result }
{
    is_value(tree, form)
}

/// Whether a whole number is in the range of its type, which is one of whole numbers.
fn is_in_range(form: &Form, number: i64) -> bool
    ensures { result ≡ integer_fits (form_view form.now) number }
{
    match form {
        Form::Byte => is_between(i64::from(i8::MAX), number),
        Form::Int16 => is_between(i64::from(i16::MAX), number),
        Form::Int32 => is_between(i64::from(i32::MAX), number),
        Form::Int64 => is_between(i64::MAX, number),
        _ => false,
    }
}

/// Whether a number is from `-most - 1` to `most`.
fn is_between(most: i64, number: i64) -> bool
    requires { pos 0 ≤ℤ most }
    ensures { (n : ℕ) → most ≡ pos n → result ≡ is_between n number }
{
    -most - 1 <= number && number <= most
}

#[cycle(writable)]
fn is_value<A: Allocator>(value: &TValue<A>, form: &Form) -> bool
    ensures { result ≡ is_writable (form_view form.now) (view value.now) }
{
    match value {
        TValue::Bool(_) => matches!(form, Form::Bool),
        TValue::Int(number) => is_in_range(form, *number),
        TValue::Bytes(text) => matches!(form, Form::Binary) && text.len() < SIZE_END,
        TValue::List(members) => match form.member() {
            Some(member) => are_members(members, member),
            None => false,
        },
        TValue::Map(entries) => match form.entry() {
            Some((key, value)) => are_entries(entries, key, value),
            None => false,
        },
        TValue::Struct(fields) => match form.fields() {
            Some(forms) => are_fields(fields, forms),
            None => false,
        },
        TValue::Skipped => false,
    }
}

#[cycle(writable)]
fn are_members<A: Allocator>(members: &[TValue<A>], form: &Form) -> bool
    ensures { result ≡ nat_lt (length members.now) 2147483648 && are_writable (form_view form.now) (trees_of (views members.now)) }
{
    for member in members {
        if !is_value(member, form) {
            return false;
        }
    }
    members.len() < SIZE_END
}

#[cycle(writable)]
fn are_entries<A: Allocator>(entries: &[MapEntry<A>], key: &Form, value: &Form) -> bool
    ensures { result ≡ nat_lt (length entries.now) 2147483648 && entries_are_writable (form_view key.now) (form_view value.now) (entries_of (entry_views entries.now)) }
{
    for entry in entries {
        if !is_entry(entry, key, value) {
            return false;
        }
    }
    entries.len() < SIZE_END
}

#[cycle(writable)]
fn is_entry<A: Allocator>(entry: &MapEntry<A>, key: &Form, value: &Form) -> bool
    ensures { result ≡ is_writable (form_view key.now) (entry_view entry.now).0 && is_writable (form_view value.now) (entry_view entry.now).1 }
{
    is_value(&entry.key, key) && is_value(&entry.value, value)
}

#[cycle(writable)]
fn are_fields<A: Allocator>(fields: &[Field<A>], forms: &[FieldForm]) -> bool
    ensures { result ≡ fields_are_writable (field_form_views forms.now) (negsuc 32768) (fields_of (field_views fields.now)) }
{
    let mut last = i32::from(i16::MIN) - 1;
    for field in fields {
        let id = i32::from(field.id);
        if id <= last || !is_field(field, forms) {
            return false;
        }
        last = id;
    }
    true
}

/// Whether a field can be written behind one with a lower id.
#[cycle(writable)]
fn is_field<A: Allocator>(field: &Field<A>, forms: &[FieldForm]) -> bool
    ensures { result ≡ for_some (λ f. is_writable f (field_view field.now).1) (form_at (field_view field.now).0 (field_form_views forms.now)) }
{
    match find_form(forms, field.id) {
        Some(form) => is_value(&field.value, form),
        None => false,
    }
}
