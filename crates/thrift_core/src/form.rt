//! The types that the values of a tree are written as.

ghost use Rattle.std.specs.Prelude.{◌≡◌, ◌<◌, option_map};
ghost use Rattle.thrift_core.specs.Form.{form_view, field_form_views, number_of, member_form, entry_forms, forms_of};

/// The type that a value is written as, and those of the values inside it. A constant takes no memory.
#[cycle(form)]
pub enum Form {
    /// A truth value.
    Bool,
    /// A whole number of 8 bits.
    Byte,
    /// A whole number of 16 bits.
    Int16,
    /// A whole number of 32 bits.
    Int32,
    /// A whole number of 64 bits.
    Int64,
    /// A binary.
    Binary,
    /// A list, with the type of its members.
    List(&'static Form),
    /// A map, with the types of its keys and values.
    Map(&'static Form, &'static Form),
    /// A struct, with the fields that it may have.
    Struct(&'static [FieldForm]),
}

/// A field that a struct may have.
#[cycle(form)]
pub struct FieldForm {
    /// The field's id.
    pub id: i16,
    /// The type that its value is written as.
    pub form: Form,
}

impl Form {
    /// The number of the type. That of a boolean is 2, as members and keys have it.
    pub(crate) fn number(&self) -> u8
        ensures number { result ≡ number_of (form_view self.now) }
        ensures fits { result < 16 }
    {
        match self {
            Form::Bool => 2,
            Form::Byte => 3,
            Form::Int16 => 4,
            Form::Int32 => 5,
            Form::Int64 => 6,
            Form::Binary => 8,
            Form::List(_) => 9,
            Form::Map(_, _) => 11,
            Form::Struct(_) => 12,
        }
    }

    /// The type of a list's members.
    pub(crate) fn member(&self) -> Option<&Form>
        ensures { option_map (λ s. form_view s.now) result ≡ member_form (form_view self.now) }
    {
        if let Form::List(member) = self {
            Some(*member)
        } else {
            None
        }
    }

    /// The types of a map's keys and values.
    pub(crate) fn entry(&self) -> Option<(&Form, &Form)>
        ensures { option_map (λ s. (form_view s.0.now, form_view s.1.now)) result ≡ entry_forms (form_view self.now) }
    {
        if let Form::Map(key, value) = self {
            Some((*key, *value))
        } else {
            None
        }
    }

    /// The fields that a struct may have.
    pub(crate) fn fields(&self) -> Option<&[FieldForm]>
        ensures { option_map (λ s. field_form_views s.now) result ≡ forms_of (form_view self.now) }
    {
        if let Form::Struct(fields) = self {
            Some(*fields)
        } else {
            None
        }
    }
}
