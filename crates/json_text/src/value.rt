//! A value, and what is asked of it.
ghost use Rattle.std.specs.Prelude.{◌≡◌, IfOk, option_map, is_some};
ghost use Rattle.serde_json.specs.Find.{as_null, as_bool, as_number, as_object, as_str, get_member};
ghost use Rattle.serde_json.specs.View.{number_view};
ghost use Rattle.json_text.specs.View.{view, named_view, members_view};

use serde_json::Number;
use std::alloc::{AllocError, Global};
use std::collections::BTreeMap;

/// A JSON value whose texts are borrowed. A name that comes twice in an object has the value that comes last.
#[derive(Drop)]
pub enum Value<'a> {
    Null,
    Bool(bool),
    Number(Number),
    String(&'a str),
    Array(Vec<Value<'a>>),
    /// The members, in the order of the text.
    Object(Vec<(&'a str, Value<'a>)>),
}

/// The members of an object, in order of their names.
pub type Named<'a, 't> = BTreeMap<&'a str, &'a Value<'t>>;

impl Value<'_> {
    /// Whether it is null.
    pub fn is_null(&self) -> bool
        ensures { result ≡ is_some (as_null (view self.now)) }
    {
        matches!(self, Value::Null)
    }

    /// The truth value that it is.
    pub fn as_bool(&self) -> Option<bool>
        ensures { result ≡ as_bool (view self.now) }
    {
        match self {
            Value::Bool(truth) => Some(*truth),
            _ => None,
        }
    }

    /// The number that it is: an integer of 64 bits, or a 64-bit float.
    pub fn as_number(&self) -> Option<&Number>
        ensures { option_map (λ n. number_view n.now) result ≡ as_number (view self.now) }
    {
        match self {
            Value::Number(number) => Some(number),
            _ => None,
        }
    }

    /// The text that it is.
    pub fn as_str(&self) -> Option<&str>
        ensures { option_map (λ s. s.now) result ≡ as_str (view self.now) }
    {
        match self {
            Value::String(text) => Some(*text),
            _ => None,
        }
    }

    /// Whether it is an object.
    pub fn is_object(&self) -> bool
        ensures { result ≡ is_some (as_object (view self.now)) }
    {
        matches!(self, Value::Object(_))
    }
}

/// The members of an object by their names, or nothing for another kind. Takes time n log n for n members.
pub fn named<'a, 't>(
    alloc: Global,
    value: &'a Value<'t>,
) -> Result<Option<Named<'a, 't>>, AllocError>
    ensures { IfOk result (λ found. option_map (λ m. named_view m.entries) found ≡ as_object (view value.now)) }
{
    match value {
        Value::Object(members) => Ok(Some(by_name(alloc, members)?)),
        _ => Ok(None),
    }
}

/// Of members with the same name the last one counts.
fn by_name<'a, 't>(
    alloc: Global,
    members: &'a [(&'t str, Value<'t>)],
) -> Result<Named<'a, 't>, AllocError>
    ensures { IfOk result (λ named. named_view named.entries ≡ members_view members.now) }
{
    let mut named = BTreeMap::new(alloc);
    'members: for member in members {
        drop(named.insert(member.0, &member.1)?);
    }
    Ok(named)
}

/// The member of this name.
pub fn member_of<'a, 't>(named: &Named<'a, 't>, name: &'a str) -> Option<&'a Value<'t>>
    ensures { option_map (λ v. view v.now) result ≡ get_member name.now (named_view named.now.entries) }
{
    named.get(&name).copied()
}
