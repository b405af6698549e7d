//! A JSON object as a value, made field by field.

ghost use Rattle.std.specs.Prelude.{◌≡◌, OnOk, Some};
ghost use Rattle.serde_json.specs.Data.{object, no_members};
ghost use Rattle.serde_json.specs.View.{view};
ghost use Rattle.json_fields.specs.Printing.{put_if};
ghost use Rattle.json_fields.specs.Views.{object_view};

use serde_json::{Map, Value};
use std::alloc::{AllocError, Global};

/// The fields of an object so far.
#[derive(Drop)]
pub struct Object {
    alloc: Global,
    members: Map<String, Value>,
}

impl Object {
    /// The object without fields.
    pub fn new(alloc: Global) -> Object
        ensures { object_view result ≡ no_members }
    {
        Object {
            alloc,
            members: Map::new(alloc),
        }
    }

    /// One field more. One of that name that stood before is replaced.
    pub fn put(&mut self, name: &str, value: Value) -> Result<(), AllocError>
        ensures { OnOk result (object_view self.new ≡ put_if name.now (Some (view value)) (object_view self.old)) }
    {
        serde_json::put(&mut self.members, self.alloc, name, value)
    }

    /// The object as a JSON value.
    pub fn into_value(self) -> Value
        ensures { view result ≡ object (object_view self) }
    {
        Value::Object(self.members)
    }
}
