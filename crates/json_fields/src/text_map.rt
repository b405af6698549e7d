//! A map from texts to texts or null, as `configuration` and `partitionValues` are.

ghost use Rattle.std.specs.Prelude.{◌≡◌, ◌++◌, true, IfOk, OnOk, option_map};
ghost use Rattle.json.specs.Tree.{json_tokens};
ghost use Rattle.serde_json.specs.Data.{object};
ghost use Rattle.serde_json.specs.View.{view, members_view};
ghost use Rattle.serde_json.specs.Written.{outline};
ghost use Rattle.json_fields.specs.Kinds.{are_texts, is_text_or_null, is_text_map, text_map, no_texts};
ghost use Rattle.json_fields.specs.Writing.{IsWritten};

use json::Writer;
use serde_json::{Map, Value};
use std::alloc::{AllocError, Global};

/// A JSON object whose members are texts or null, as it stands.
#[derive(Drop)]
pub struct TextMap {
    object: Value,
    ghost is_map: { is_text_map (view object) ≡ true },
}

impl TextMap {
    ghost use Rattle.json_fields.specs.Views.{map_view};

    /// The map without members.
    pub fn new(alloc: Global) -> TextMap
        ensures { map_view result ≡ no_texts }
    {
        TextMap {
            object: Value::Object(Map::new(alloc)),
        }
    }

    /// A copy of the value as a map; `None` where it is of another kind.
    pub(crate) fn of_value(value: &Value) -> Result<Option<TextMap>, AllocError>
        ensures { IfOk result (λ found. option_map map_view found ≡ text_map (view value.now)) }
    {
        if !is_text_map(value) {
            return Ok(None);
        }
        let object = value.clone()?;
        Ok(Some(TextMap { object }))
    }

    /// Writes the map as a JSON object.
    pub(crate) fn write_object(&self, out: &mut Writer) -> Result<(), AllocError>
        ensures ok { OnOk result (IsWritten (map_view self.now) out.old.tokens out.new.tokens) }
        ensures before { out.new.before ≡ out.old.before }
    {
        match self.object.as_object() {
            Some(members) => write_texts(members, out),
            None => unreachable!(),
        }
    }
}

/// The object of these members.
fn write_texts(members: &Map<String, Value>, out: &mut Writer) -> Result<(), AllocError>
    requires { are_texts (members_view members.now.entries) ≡ true }
    ensures ok { OnOk result (IsWritten (object (members_view members.now.entries)) out.old.tokens out.new.tokens) }
    ensures before { out.new.before ≡ out.old.before }
{
    out.begin_object()?;
    for (name, member) in members.iter() {
        out.key(name.as_str())?;
        write_text(member, out)?;
    }
    out.end_object()
}

/// A member, which is a text or null.
fn write_text(member: &Value, out: &mut Writer) -> Result<(), AllocError>
    requires { is_text_or_null (view member.now) ≡ true }
    ensures ok { OnOk result (out.new.tokens ≡ out.old.tokens ++ json_tokens (outline (view member.now))) }
    ensures before { out.new.before ≡ out.old.before }
{
    match member.as_str() {
        Some(text) => out.string(text),
        None => out.null(),
    }
}

fn is_text_map(value: &Value) -> bool
    ensures { result ≡ is_text_map (view value.now) }
{
    match value.as_object() {
        Some(members) => are_texts(members),
        None => false,
    }
}

fn are_texts(members: &Map<String, Value>) -> bool
    ensures { result ≡ are_texts (members_view members.now.entries) }
{
    for (_, member) in members.iter() {
        if !is_text_or_null(member) {
            return false;
        }
    }
    true
}

fn is_text_or_null(value: &Value) -> bool
    ensures { result ≡ is_text_or_null (view value.now) }
{
    value.is_string() || value.is_null()
}
