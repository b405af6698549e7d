//! The fields of a JSON object, written one by one between its braces. Callers write them in the order of their names'
//! bytes, as a JSON value prints them.

ghost use Rattle.std.specs.Prelude.{◌≡◌, [], ◌∷◌, OnOk, Some, option_map};
ghost use Rattle.json_fields.specs.Printing.{unless_empty};
ghost use Rattle.json_fields.specs.Views.{text_views};
ghost use Rattle.json_fields.specs.Writing.{AreWritten};

use crate::kind::FieldKind;
use json::Writer;
use std::alloc::AllocError;

/// One field.
pub fn write_field<T: FieldKind>(out: &mut Writer, name: &str, value: &T) -> Result<(), AllocError>
    ensures ok { OnOk result (AreWritten ((name.now, Some (T.printed (T.plain value.now))) ∷ [])
        out.old.tokens out.new.tokens) }
    ensures before { out.new.before ≡ out.old.before }
{
    out.key(name)?;
    value.write(out)
}

/// A field that isn't printed where it is absent.
pub fn write_optional<T: FieldKind>(
    out: &mut Writer,
    name: &str,
    value: &Option<T>,
) -> Result<(), AllocError>
    ensures ok { OnOk result (AreWritten ((name.now, option_map (λ x. T.printed (T.plain x)) value.now) ∷ [])
        out.old.tokens out.new.tokens) }
    ensures before { out.new.before ≡ out.old.before }
{
    match value {
        Some(value) => write_field(out, name, value),
        None => Ok(()),
    }
}

/// A list that isn't printed where it is empty.
pub fn write_unless_empty(
    out: &mut Writer,
    name: &str,
    texts: &Vec<String>,
) -> Result<(), AllocError>
    ensures ok { OnOk result (AreWritten ((name.now, unless_empty (text_views texts.now)) ∷ [])
        out.old.tokens out.new.tokens) }
    ensures before { out.new.before ≡ out.old.before }
{
    if texts.is_empty() {
        return Ok(());
    }
    write_field(out, name, texts)
}
