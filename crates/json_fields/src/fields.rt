//! Fields read by name from a JSON object.

ghost use Rattle.std.specs.Prelude.{◌≡◌, IfOk, IfErr, option_map};
ghost use Rattle.serde_json.specs.Data.{Data};
ghost use Rattle.serde_json.specs.View.{view};
ghost use Rattle.json_fields.specs.Gives.{FieldGives};
ghost use Rattle.json_fields.specs.Kinds.{field, of_kind};
ghost use Rattle.json_fields.specs.Fields.{fields_of, optional, needed, defaulted};

use crate::fault::FieldFault;
use crate::kind::FieldKind;
use serde_json::Value;
use std::alloc::{AllocError, Global};

/// The member of that name, or no value where it is missing or null; `None` where it is of another
/// kind.
pub fn find<T: FieldKind + Drop>(
    alloc: Global,
    value: &Value,
    name: &str,
) -> Result<Option<Option<T>>, AllocError>
    ensures { IfOk result (λ found. option_map (λ o. option_map T.plain o) found
        ≡ of_kind T.kind (field name.now (view value.now))) }
{
    match value.get(name) {
        Some(member) if !member.is_null() => match T::read(alloc, member)? {
            Some(found) => Ok(Some(Some(found))),
            None => Ok(None),
        },
        _ => Ok(Some(None)),
    }
}

/// The fields of an object.
#[derive(Clone, Copy)]
pub struct Fields<'a> {
    /// Where what they hold is allocated.
    pub alloc: Global,
    /// The object that has them.
    pub value: &'a Value,
}

impl<'a> Fields<'a> {
    /// The fields of a value, which has to be an object. A fault names `key`, under which it stands.
    pub fn of(alloc: Global, key: &'static str, value: &'a Value) -> Result<Fields<'a>, FieldFault>
        ensures fields { FieldGives (λ fields. view fields.value.now) result (fields_of key.now (view value.now)) }
        // It needs no memory.
        ensures fault { IfErr result (λ e. e ≡ FieldFault.BadField key.entry) }
    {
        if value.is_object() {
            Ok(Fields { alloc, value })
        } else {
            Err(FieldFault::BadField { field: key })
        }
    }

    /// A field that may be missing; a null one is.
    #[tactic(auto, unfolding(crate::specs::Fields::optional))]
    pub fn optional<T: FieldKind + Drop>(&self, name: &'static str) -> Result<Option<T>, FieldFault>
        ensures { FieldGives (λ found. option_map T.plain found) result
            (optional T.kind name.now (view self.now.value.now)) }
    {
        match find(self.alloc, self.value, name)? {
            Some(found) => Ok(found),
            None => Err(FieldFault::BadField { field: name }),
        }
    }

    /// A field that has to be there.
    #[tactic(auto, unfolding(crate::specs::Fields::needed))]
    pub fn needed<T: FieldKind + Drop>(&self, name: &'static str) -> Result<T, FieldFault>
        ensures { FieldGives T.plain result (needed T.kind name.now (view self.now.value.now)) }
    {
        match self.optional(name)? {
            Some(found) => Ok(found),
            None => Err(FieldFault::BadField { field: name }),
        }
    }

    /// A field that stands for `other` where it is missing.
    #[tactic(auto, unfolding(crate::specs::Fields::defaulted))]
    pub fn defaulted<T: FieldKind + Drop>(
        &self,
        name: &'static str,
        other: T,
    ) -> Result<T, FieldFault>
        ensures { FieldGives T.plain result
            (defaulted T.kind name.now (T.plain other) (view self.now.value.now)) }
    {
        match self.optional(name)? {
            Some(found) => Ok(found),
            None => Ok(other),
        }
    }
}
