//! Numbers with a fraction or an exponent in metadata: how they are printed is left open.

ghost use Rattle.std.specs.Prelude.{◌≡◌, IfOk};
ghost use Rattle.serde_json.specs.View.{view, items_view, members_view};
ghost use Rattle.serde_json.specs.Written.{has_float, items_have_float, members_have_float};
ghost use Rattle.schema_tree.specs.Schema.{tree_of};
ghost use Rattle.schema_tree.specs.Printing.{data_of};

use crate::printing::{items_of, struct_value};
use crate::schema::Schema;
use serde_json::{Map, Value};
use std::alloc::{AllocError, Allocator, Global};

impl<A: Allocator> Schema<A> {
    /// Whether a number in metadata has a fraction or an exponent, or doesn't fit 64 bits. The text that
    /// [`Schema::to_text`] gives is known to the last byte where none has.
    pub fn has_fraction(&self, alloc: Global) -> Result<bool, AllocError>
        ensures { IfOk result (λ has. has ≡ has_float (data_of (tree_of self.now))) }
    {
        let items = items_of(&self.fields, alloc)?;
        let value = struct_value(alloc, items)?;
        Ok(has_float(&value))
    }
}

/// Whether a number with a fraction or an exponent stands in the value.
#[cycle(floats)]
fn has_float(value: &Value) -> bool
    ensures { result ≡ has_float (view value.now) }
{
    match value {
        Value::Number(number) => number.is_f64(),
        Value::Array(items) => items_have_float(items),
        Value::Object(members) => members_have_float(members),
        _ => false,
    }
}

#[cycle(floats)]
fn items_have_float(items: &[Value]) -> bool
    ensures { result ≡ items_have_float (items_view items.now) }
{
    for item in items {
        if has_float(item) {
            return true;
        }
    }
    false
}

#[cycle(floats)]
fn members_have_float(members: &Map<String, Value>) -> bool
    ensures { result ≡ members_have_float (members_view members.now.entries) }
{
    for (_, member) in members.iter() {
        if has_float(member) {
            return true;
        }
    }
    false
}
