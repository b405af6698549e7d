//! The fields of a struct, by their ids.

ghost use Rattle.std.specs.Prelude.{◌≡◌, ◌↔◌, IsTrue, option_map, IfOk, IfErr, Some, None};
ghost use Rattle.thrift_values.specs.Tree.{value_of_field};
ghost use Rattle.thrift_values.specs.View.{view, field_view};

use crate::fault::ThriftFault;
use crate::value::{Field, TValue};
use std::alloc::Allocator;

impl<A: Allocator> TValue<A> {
    /// The value of a field of a struct, of several of this id the last. None where the struct has none,
    /// or the value is no struct. The time is linear in the fields.
    pub fn field(&self, id: i16) -> Option<&TValue<A>>
        ensures { option_map (λ v. view v.now) result ≡ value_of_field id (view self.now) }
    {
        let TValue::Struct(fields) = self else {
            return None;
        };
        let mut found = None;
        for field in fields {
            if has_id(field, id) {
                found = Some(&field.value);
            }
        }
        found
    }

    /// The value of a field that has to be there: TH4 where [`TValue::field`] gives none.
    pub fn required(&self, id: i16) -> Result<&TValue<A>, ThriftFault>
        ensures found { IfOk result (λ v. value_of_field id (view self.now) ≡ Some (view v.now)) }
        ensures missing { IfErr result (λ fault. (value_of_field id (view self.now) ≡ None) × (fault ≡ ThriftFault.MissingField id)) }
    {
        self.field(id).ok_or(ThriftFault::MissingField { id })
    }
}

fn has_id<A: Allocator>(field: &Field<A>, id: i16) -> bool
    ensures { IsTrue result ↔ ((field_view field.now).0 ≡ id) }
{
    field.id == id
}
