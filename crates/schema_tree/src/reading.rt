//! JSON read as types, depth first.

ghost use Rattle.std.specs.Prelude.{◌≡◌, ℕ, ◌≤◌, List, [], map, bytes_eq, codes, true, IfOk};
ghost use Rattle.std.specs.List.{list_any};
ghost use Rattle.serde_json.specs.Data.{depth, items_depth, object, no_members};
ghost use Rattle.serde_json.specs.Find.{as_str, as_bool, as_array};
ghost use Rattle.outcomes.specs.Outcome.{Gives};
ghost use Rattle.schema_tree.specs.Fault.{says, tells};
ghost use Rattle.serde_json.specs.Read.{max_depth};
ghost use Rattle.serde_json.specs.View.{view as value_view, items_view};
ghost use Rattle.schema_tree.specs.Internal.{met_of, Reads};
ghost use Rattle.schema_tree.specs.Reading.{needed, defaulted, any_value, as_map, object_of, node_of, struct_of, array_of, map_of, fields_behind, field_of, column_of, leaf_of};
ghost use Rattle.schema_tree.specs.View.{view, field_view, field_views, metadata_of};

use crate::counts::Counts;
use crate::fault::{ReadError, SchemaFault};
use crate::node::{Field, Node};
use crate::primitive::Primitive;
use field_metadata::Metadata;
use serde_json::Value;
use std::alloc::Global;

/// The member of that name, which has to be there.
#[tactic(auto, unfolding(crate::specs::Reading::needed))]
fn needed<'a>(value: &'a Value, name: &str) -> Result<&'a Value, SchemaFault>
    ensures found { Gives tells (λ v. value_view v.now) result (needed any_value name.now (value_view value.now)) }
    ensures inside { IfOk result (λ v. depth (value_view v.now) ≤ depth (value_view value.now)) }
{
    match value.get(name) {
        Some(found) => Ok(found),
        None => Err(SchemaFault::bad_type()),
    }
}

/// The text of that name, which has to be there.
#[tactic(auto, unfolding(crate::specs::Reading::needed))]
pub(crate) fn needed_text<'a>(value: &'a Value, name: &str) -> Result<&'a str, SchemaFault>
    ensures { Gives tells (λ s. s.now) result (needed as_str name.now (value_view value.now)) }
{
    match needed(value, name)?.as_str() {
        Some(text) => Ok(text),
        None => Err(SchemaFault::bad_type()),
    }
}

/// The items of the array of that name, which has to be there.
#[tactic(auto, unfolding(crate::specs::Reading::needed))]
fn needed_items<'a>(value: &'a Value, name: &str) -> Result<&'a [Value], SchemaFault>
    ensures found { Gives tells (λ v. items_view v.now) result (needed as_array name.now (value_view value.now)) }
    ensures inside { IfOk result (λ v. items_depth (items_view v.now) ≤ depth (value_view value.now)) }
{
    match needed(value, name)?.as_array() {
        Some(items) => Ok(items),
        None => Err(SchemaFault::bad_type()),
    }
}

/// The truth value of that name; true where it is absent.
#[tactic(auto, unfolding(crate::specs::Reading::defaulted))]
fn truth_or_true(value: &Value, name: &str) -> Result<bool, SchemaFault>
    ensures { Gives tells (λ b. b) result (defaulted as_bool name.now true (value_view value.now)) }
{
    match value.get(name) {
        None => Ok(true),
        Some(found) => match found.as_bool() {
            Some(truth) => Ok(truth),
            None => Err(SchemaFault::bad_type()),
        },
    }
}

/// The metadata of a field; that without entries where it is absent.
#[tactic(auto, unfolding(crate::specs::Reading::defaulted))]
fn metadata_or_none(alloc: Global, value: &Value) -> Result<Metadata<Global>, ReadError>
    requires { depth (value_view value.now) ≤ max_depth }
    ensures { Gives says metadata_of result
        (defaulted as_map (codes "metadata") (object no_members) (value_view value.now)) }
{
    match value.get("metadata") {
        None => Ok(Metadata::none(alloc)?),
        Some(found) if found.is_object() => Ok(Metadata::of_object(alloc, found)?),
        Some(_) => Err(SchemaFault::bad_type().into()),
    }
}

/// Whether one of the fields has this name.
fn is_name_of(fields: &[Field<Global>], name: &str) -> bool
    ensures { result ≡ list_any (bytes_eq name.now) (map (λ c. c.name) (field_views fields.now)) }
{
    fields.iter().any(|f| f.name.as_str() == name)
}

fn primitive(name: &str) -> Result<Node<Global>, SchemaFault>
    ensures { Gives tells view result (leaf_of name.now) }
{
    match Primitive::from_name(name) {
        Some(primitive) => Ok(Node::Leaf(primitive)),
        None => Err(SchemaFault::bad_type()),
    }
}

impl Counts {
    /// A type, below which so many levels less one may stand.
    #[cycle(read)]
    #[tactic(auto, unfolding(crate::specs::Reading::node_of, crate::specs::Reading::content_of))]
    pub(crate) fn node(
        &mut self,
        alloc: Global,
        below: u32,
        value: &Value,
    ) -> Result<Node<Global>, ReadError>
        requires { depth (value_view value.now) ≤ max_depth }
        ensures { Reads view (node_of below (value_view value.now) (met_of self.old)) result self.new }
    {
        if below == 0 {
            return Err(SchemaFault::TooDeep.into());
        }
        self.count(value)?;
        match value {
            Value::String(name) => Ok(primitive(name.as_str())?),
            Value::Object(_) => self.nested(alloc, below - 1, value),
            _ => Err(SchemaFault::bad_type().into()),
        }
    }

    /// A type given by an object.
    #[cycle(read)]
    #[tactic(auto, unfolding(crate::specs::Reading::object_of, crate::specs::Reading::nested_of))]
    fn nested(
        &mut self,
        alloc: Global,
        below: u32,
        value: &Value,
    ) -> Result<Node<Global>, ReadError>
        requires { depth (value_view value.now) ≤ max_depth }
        ensures { Reads view (object_of (node_of below) (value_view value.now) (met_of self.old)) result self.new }
    {
        match needed_text(value, "type")? {
            "struct" => {
                let fields = self.fields(alloc, below, value)?;
                Ok(Node::Struct(fields))
            }
            "array" => self.array(alloc, below, value),
            "map" => self.map(alloc, below, value),
            _ => Err(SchemaFault::bad_type().into()),
        }
    }

    #[cycle(read)]
    #[tactic(auto, unfolding(crate::specs::Reading::array_of))]
    fn array(&mut self, alloc: Global, below: u32, value: &Value) -> Result<Node<Global>, ReadError>
        requires { depth (value_view value.now) ≤ max_depth }
        ensures { Reads view (array_of (node_of below) (value_view value.now) (met_of self.old)) result self.new }
    {
        let contains_null = truth_or_true(value, "containsNull")?;
        let element = self.node(alloc, below, needed(value, "elementType")?)?;
        Ok(Node::Array {
            element: Box::new(alloc, element)?,
            contains_null,
        })
    }

    #[cycle(read)]
    #[tactic(auto, unfolding(crate::specs::Reading::map_of))]
    fn map(&mut self, alloc: Global, below: u32, value: &Value) -> Result<Node<Global>, ReadError>
        requires { depth (value_view value.now) ≤ max_depth }
        ensures { Reads view (map_of (node_of below) (value_view value.now) (met_of self.old)) result self.new }
    {
        let value_contains_null = truth_or_true(value, "valueContainsNull")?;
        let key_type = needed(value, "keyType")?;
        let value_type = needed(value, "valueType")?;
        let key = self.node(alloc, below, key_type)?;
        let value = self.node(alloc, below, value_type)?;
        Ok(Node::Map {
            key: Box::new(alloc, key)?,
            value: Box::new(alloc, value)?,
            value_contains_null,
        })
    }

    /// The fields of a struct, in which so many levels may stand.
    #[cycle(read)]
    #[tactic(auto, unfolding(crate::specs::Reading::struct_of))]
    pub(crate) fn fields(
        &mut self,
        alloc: Global,
        below: u32,
        value: &Value,
    ) -> Result<Vec<Field<Global>>, ReadError>
        requires { depth (value_view value.now) ≤ max_depth }
        ensures { Reads (λ v. field_views v.items)
            (struct_of (node_of below) (value_view value.now) (met_of self.old)) result self.new }
    {
        let items = needed_items(value, "fields")?;
        if items.is_empty() {
            return Err(SchemaFault::no_fields().into());
        }
        self.all_fields(alloc, below, items)
    }

    #[cycle(read)]
    fn all_fields(
        &mut self,
        alloc: Global,
        below: u32,
        items: &[Value],
    ) -> Result<Vec<Field<Global>>, ReadError>
        requires { items_depth (items_view items.now) ≤ max_depth }
        ensures { Reads (λ v. field_views v.items)
            (fields_behind (node_of below) [] (items_view items.now) (met_of self.old)) result self.new }
    {
        let mut fields = Vec::with_capacity(alloc, items.len().min(256))?;
        for item in items {
            let field = self.field(alloc, below, &fields, item)?;
            fields.push(field)?;
        }
        Ok(fields)
    }

    /// A field behind these.
    #[cycle(read)]
    #[tactic(auto, unfolding(crate::specs::Reading::field_of))]
    fn field(
        &mut self,
        alloc: Global,
        below: u32,
        before: &[Field<Global>],
        value: &Value,
    ) -> Result<Field<Global>, ReadError>
        requires { depth (value_view value.now) ≤ max_depth }
        ensures { Reads field_view (field_of (node_of below) (map (λ c. c.name) (field_views before.now))
            (value_view value.now) (met_of self.old)) result self.new }
    {
        let name = needed_text(value, "name")?;
        if is_name_of(before, name) {
            let error = ReadError::from(SchemaFault::double_name());
            return Err(error.inside(alloc, name));
        }
        match self.column(alloc, below, name, value) {
            Ok(field) => Ok(field),
            Err(error) => Err(error.inside(alloc, name)),
        }
    }

    /// What stands behind a field's name.
    #[cycle(read)]
    #[tactic(auto, unfolding(crate::specs::Reading::column_of))]
    fn column(
        &mut self,
        alloc: Global,
        below: u32,
        name: &str,
        value: &Value,
    ) -> Result<Field<Global>, ReadError>
        requires { depth (value_view value.now) ≤ max_depth }
        ensures { Reads field_view
            (column_of (node_of below) name.now (value_view value.now) (met_of self.old)) result self.new }
    {
        let nullable = truth_or_true(value, "nullable")?;
        let metadata = metadata_or_none(alloc, value)?;
        let data_type = self.node(alloc, below, needed(value, "type")?)?;
        Ok(Field {
            name: String::from_str(alloc, name)?,
            data_type,
            nullable,
            metadata,
        })
    }
}
