//! A field's metadata.

ghost use Rattle.std.specs.Prelude.{◌≡◌, ◌≤◌, IfOk, IsTrue, string_bytes, true, false, is_some};
ghost use Rattle.serde_json.specs.Data.{object, no_members, depth};
ghost use Rattle.serde_json.specs.Find.{as_object};
ghost use Rattle.serde_json.specs.Read.{max_depth};
ghost use Rattle.serde_json.specs.View.{view};
ghost use Rattle.serde_json.specs.Written.{has_float};
ghost use Rattle.field_metadata.specs.Metadata.{IsCompactObject, value_of};

use serde_json::Value;
use std::alloc::{AllocError, Allocator, Global};

/// A field's metadata (Delta PROTOCOL.md, "Struct Field"): a JSON object, kept as its text. The text has no spaces,
/// and keys in order of bytes, where no number has a fraction or an exponent or doesn't fit 64 bits; how it is written
/// otherwise is left open.
pub struct Metadata<A: Allocator> {
    text: String<A>,
    ghost is_object: { IsCompactObject (string_bytes text) },
}

// By hand, so that a drop is one call to prove and not all that it holds (docs/GATE.md).
impl<A: Allocator> Drop for Metadata<A> {
    fn drop(self) {
        let Metadata { text: _ } = self;
    }
}

impl Metadata<Global> {
    ghost use Rattle.field_metadata.specs.View.{metadata_of};

    /// The metadata without entries.
    pub fn none(alloc: Global) -> Result<Metadata<Global>, AllocError>
        ensures { IfOk result (λ m. metadata_of m ≡ object no_members) }
    {
        Ok(Metadata {
            text: String::from_str(alloc, "{}")?,
        })
    }

    /// The metadata that an object is.
    pub fn of_object(alloc: Global, value: &Value) -> Result<Metadata<Global>, AllocError>
        requires object { is_some (as_object (view value.now)) ≡ true }
        requires shallow { depth (view value.now) ≤ max_depth }
        ensures { IfOk result (λ m. metadata_of m ≡ view value.now) }
    {
        Ok(Metadata {
            text: value.to_string(alloc)?,
        })
    }
}

impl<A: Allocator> Metadata<A> {
    ghost use Rattle.field_metadata.specs.View.{metadata_of, text_of};

    /// The JSON text. Where no number has a fraction or an exponent or doesn't fit 64 bits, it has no spaces, and keys
    /// in order of bytes.
    pub fn as_str(&self) -> &str
        ensures kept { result.now ≡ text_of self.now }
        ensures object { value_of result.now ≡ metadata_of self.now }
        ensures compact { IsCompactObject result.now }
    {
        self.text.as_str()
    }

    /// The JSON object.
    pub fn value(&self, alloc: Global) -> Result<Value, AllocError>
        ensures { IfOk result (λ v. view v ≡ metadata_of self.now) }
    {
        match Value::from_str(alloc, self.text.as_str()) {
            Ok(value) => Ok(value),
            Err(_) => Err(AllocError),
        }
    }

    /// The same metadata in another allocator.
    pub fn copy_into<B: Allocator>(&self, alloc: B) -> Result<Metadata<B>, AllocError>
        ensures { IfOk result (λ m. text_of m ≡ text_of self.now) }
    {
        Ok(Metadata {
            text: String::from_str(alloc, self.text.as_str())?,
        })
    }

    /// Whether both are the same metadata. It takes no memory.
    pub fn same<B: Allocator>(&self, other: &Metadata<B>) -> bool
        ensures sound { IsTrue result → metadata_of self.now ≡ metadata_of other.now }
        ensures complete { has_float (metadata_of self.now) ≡ false
            → metadata_of self.now ≡ metadata_of other.now → IsTrue result }
    {
        self.text.as_str() == other.text.as_str()
    }
}
