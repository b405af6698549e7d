//! An array of JSON that owns its text.
ghost use Rattle.std.specs.Prelude.{◌≡◌, string_bytes, Some, None, Err, IfOk, option_map};
ghost use Rattle.serde_json.specs.Events.{items_len};
ghost use Rattle.json_text.specs.Arrays.{array_in};

use crate::error::TextError;
use crate::reading::value_in;
use crate::value::Value;
use json::Scratch;
use std::alloc::{AllocError, Global};

/// An array of JSON that owns its text, and whose members are read when they are asked for.
#[derive(Drop)]
pub struct ArrayText {
    text: String,
    len: usize,
    ghost counted: { option_map items_len (array_in (string_bytes text)) ≡ Some len },
}

impl ArrayText {
    ghost use Rattle.json_text.specs.Rows.{array_data};
    ghost use Rattle.json_text.specs.View.{items_view};

    /// The array that a text is. `Malformed` where the text isn't an array. Takes time linear in the text.
    pub fn from_text(alloc: Global, text: &str) -> Result<ArrayText, TextError>
        ensures read { IfOk result (λ array. array_in text.now ≡ Some (array_data array)) }
        ensures malformed { result ≡ Err TextError.Malformed → array_in text.now ≡ None }
    {
        let mut scratch = Scratch::new(alloc);
        let len = match value_in(alloc, text, &mut scratch)? {
            Value::Array(items) => items.len(),
            _ => return Err(TextError::Malformed),
        };
        let text = String::from_str(alloc, text)?;
        Ok(ArrayText { text, len })
    }

    /// How many members it has.
    pub fn len(&self) -> usize
        ensures { result ≡ items_len (array_data self.now) }
    {
        self.len
    }

    /// The members, read anew. It fails only for want of memory; the time is linear in the text.
    pub fn values<'a>(
        &'a self,
        alloc: Global,
        scratch: &'a mut Scratch,
    ) -> Result<Vec<Value<'a>>, AllocError>
        ensures { IfOk result (λ values. items_view values.items ≡ array_data self.now) }
    {
        match value_in(alloc, self.text.as_str(), scratch) {
            Ok(Value::Array(items)) => Ok(items),
            _ => Err(AllocError),
        }
    }
}
