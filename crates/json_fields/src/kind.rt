//! The kinds of a field: which JSON values are of each, what they stand for, and how they are printed.

ghost use Rattle.std.specs.Prelude.{◌≡◌, ℕ, Option, Some, IfOk, OnOk, option_map, string_bytes, List, Bool, true};
ghost use Rattle.serde_json.specs.Data.{Data, string, boolean};
ghost use Rattle.serde_json.specs.Find.{as_str, as_bool};
ghost use Rattle.serde_json.specs.View.{view};
ghost use Rattle.json_fields.specs.Kinds.{count, texts, is_text_map, text_map};
ghost use Rattle.json_fields.specs.KindLaws.{StandsFor, text_stands, truth_stands, count_stands, is_count, texts_stand, map_stands, is_map};
ghost use Rattle.json_fields.specs.Printing.{count_data, IsCount, texts_data};
ghost use Rattle.json_fields.specs.Views.{text_views, map_view};
ghost use Rattle.json_fields.specs.Writing.{IsWritten};

use crate::text_map::TextMap;
use json::Writer;
use serde_json::Value;
use std::alloc::{AllocError, Global};

/// A kind of field: which JSON values are of it, and what they stand for.
pub trait FieldKind: Sized {
    // what contracts see of a value of this kind
    ghost Plain: { Type 0 };

    ghost plain: { Self → Plain };

    // what a JSON value stands for, where it is of this kind
    ghost kind: { Data → Option Plain };

    // the JSON value that it is printed as
    ghost printed: { Plain → Data };

    // a value that can be printed
    ghost is_printable: { Plain → Type 0 };

    /// What the value stands for; `None` where it is of another kind.
    fn read(alloc: Global, value: &Value) -> Result<Option<Self>, AllocError>
        ensures { IfOk result (λ found. option_map plain found ≡ kind (view value.now)) };

    /// Writes the JSON value that it is printed as, whose text reads as that value: so it has no number but whole ones
    /// of 64 bits.
    fn write(&self, out: &mut Writer) -> Result<(), AllocError>
        ensures ok { OnOk result (IsWritten (printed (plain self.now)) out.old.tokens out.new.tokens) }
        ensures before { out.new.before ≡ out.old.before };

    // what is printed stands for the value
    ghost reads_back: { (x : Plain) → is_printable x → StandsFor kind (printed x) x };

    // what is read can be printed
    ghost prints_back: { (d : Data) (x : Plain) → kind d ≡ Some x → is_printable x };
}

impl FieldKind for String {
    ghost Plain = { List ℕ };

    ghost plain = { λ s. string_bytes s };

    ghost kind = { as_str };

    ghost printed = { string };

    ghost is_printable = { λ _. Unit {0} };

    fn read(alloc: Global, value: &Value) -> Result<Option<String>, AllocError> {
        match value.as_str() {
            Some(text) => Ok(Some(String::from_str(alloc, text)?)),
            None => Ok(None),
        }
    }

    fn write(&self, out: &mut Writer) -> Result<(), AllocError> {
        out.string(self.as_str())
    }

    ghost reads_back = { λ t h. text_stands t };

    ghost prints_back = { λ d t e. tt };
}

impl FieldKind for bool {
    ghost Plain = { Bool };

    ghost plain = { λ b. b };

    ghost kind = { as_bool };

    ghost printed = { boolean };

    ghost is_printable = { λ _. Unit {0} };

    fn read(_alloc: Global, value: &Value) -> Result<Option<bool>, AllocError> {
        Ok(value.as_bool())
    }

    fn write(&self, out: &mut Writer) -> Result<(), AllocError> {
        out.boolean(*self)
    }

    ghost reads_back = { λ b h. truth_stands b };

    ghost prints_back = { λ d b e. tt };
}

// A whole number from 0 to 2^63 - 1.
impl FieldKind for u64 {
    ghost Plain = { ℕ };

    ghost plain = { λ n. n };

    ghost kind = { count };

    ghost printed = { count_data };

    ghost is_printable = { IsCount };

    fn read(_alloc: Global, value: &Value) -> Result<Option<u64>, AllocError> {
        Ok(value.as_u64().filter(|n| *n < 1 << 63))
    }

    fn write(&self, out: &mut Writer) -> Result<(), AllocError> {
        out.u64(*self)
    }

    ghost reads_back = { count_stands };

    ghost prints_back = { is_count };
}

impl FieldKind for Vec<String> {
    ghost Plain = { List (List ℕ) };

    ghost plain = { text_views };

    ghost kind = { texts };

    ghost printed = { texts_data };

    ghost is_printable = { λ _. Unit {0} };

    fn read(alloc: Global, value: &Value) -> Result<Option<Vec<String>>, AllocError> {
        let Some(items) = value.as_array() else {
            return Ok(None);
        };
        let mut texts = Vec::with_capacity(alloc, items.len())?;
        for item in items {
            let Some(text) = item.as_str() else {
                return Ok(None);
            };
            texts.push(String::from_str(alloc, text)?)?;
        }
        Ok(Some(texts))
    }

    fn write(&self, out: &mut Writer) -> Result<(), AllocError> {
        out.begin_array()?;
        for text in self {
            out.string(text.as_str())?;
        }
        out.end_array()
    }

    ghost reads_back = { λ ts h. texts_stand ts };

    ghost prints_back = { λ d ts e. tt };
}

impl FieldKind for TextMap {
    ghost Plain = { Data };

    ghost plain = { map_view };

    ghost kind = { text_map };

    ghost printed = { λ d. d };

    ghost is_printable = { λ d. is_text_map d ≡ true };

    fn read(_alloc: Global, value: &Value) -> Result<Option<TextMap>, AllocError> {
        TextMap::of_value(value)
    }

    fn write(&self, out: &mut Writer) -> Result<(), AllocError> {
        self.write_object(out)
    }

    ghost reads_back = { map_stands };

    ghost prints_back = { is_map };
}
