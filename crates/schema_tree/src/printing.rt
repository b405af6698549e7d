//! Types printed as JSON.

ghost use Rattle.std.specs.Prelude.{◌≡◌, IfOk};
ghost use Rattle.serde_json.specs.View.{view as value_view, items_view};
ghost use Rattle.schema_tree.specs.Printing.{data_of, items_of_fields, field_data, struct_data, array_data, map_data};
ghost use Rattle.schema_tree.specs.Tree.{fields_of};
ghost use Rattle.schema_tree.specs.View.{view, field_view, field_views};

use crate::node::{Field, Node};
use json_fields::Object;
use serde_json::Value;
use std::alloc::{AllocError, Allocator, Global};

impl<A: Allocator> Node<A> {
    /// The type as JSON.
    #[cycle(print)]
    fn to_value(&self, alloc: Global) -> Result<Value, AllocError>
        ensures { IfOk result (λ v. value_view v ≡ data_of (view self.now)) }
    {
        match self {
            Node::Leaf(primitive) => Ok(Value::String(primitive.name(alloc)?)),
            Node::Struct(fields) => {
                let items = items_of(fields, alloc)?;
                struct_value(alloc, items)
            }
            Node::Array {
                element,
                contains_null,
            } => {
                let element = element.to_value(alloc)?;
                array_value(alloc, element, *contains_null)
            }
            Node::Map {
                key,
                value,
                value_contains_null,
            } => {
                let key = key.to_value(alloc)?;
                let value = value.to_value(alloc)?;
                map_value(alloc, key, value, *value_contains_null)
            }
        }
    }
}

impl<A: Allocator> Field<A> {
    /// The field as JSON.
    #[cycle(print)]
    fn to_value(&self, alloc: Global) -> Result<Value, AllocError>
        ensures { IfOk result (λ v. let c = field_view self.now in
            value_view v ≡ field_data c.name (data_of c.data_type) c.nullable c.metadata) }
    {
        let mut object = Object::new(alloc);
        object.put("name", Value::try_from_str(alloc, self.name.as_str())?)?;
        object.put("type", self.data_type.to_value(alloc)?)?;
        object.put("nullable", Value::Bool(self.nullable))?;
        object.put("metadata", self.metadata.value(alloc)?)?;
        Ok(object.into_value())
    }
}

/// The fields as JSON.
#[cycle(print)]
pub(crate) fn items_of<A: Allocator>(
    fields: &[Field<A>],
    alloc: Global,
) -> Result<Vec<Value>, AllocError>
    ensures { IfOk result (λ v. items_view v.items ≡ items_of_fields (fields_of (field_views fields.now))) }
{
    let mut items = Vec::with_capacity(alloc, fields.len())?;
    for field in fields {
        items.push(field.to_value(alloc)?)?;
    }
    Ok(items)
}

/// A struct of these fields.
pub(crate) fn struct_value(alloc: Global, items: Vec<Value>) -> Result<Value, AllocError>
    ensures { IfOk result (λ v. value_view v ≡ struct_data (items_view items.items)) }
{
    let mut object = Object::new(alloc);
    object.put("type", Value::try_from_str(alloc, "struct")?)?;
    object.put("fields", Value::Array(items))?;
    Ok(object.into_value())
}

fn array_value(alloc: Global, element: Value, contains_null: bool) -> Result<Value, AllocError>
    ensures { IfOk result (λ v. value_view v ≡ array_data (value_view element) contains_null) }
{
    let mut object = Object::new(alloc);
    object.put("type", Value::try_from_str(alloc, "array")?)?;
    object.put("elementType", element)?;
    object.put("containsNull", Value::Bool(contains_null))?;
    Ok(object.into_value())
}

fn map_value(
    alloc: Global,
    key: Value,
    value: Value,
    contains_null: bool,
) -> Result<Value, AllocError>
    ensures { IfOk result (λ v. value_view v ≡ map_data (value_view key) (value_view value) contains_null) }
{
    let mut object = Object::new(alloc);
    object.put("type", Value::try_from_str(alloc, "map")?)?;
    object.put("keyType", key)?;
    object.put("valueType", value)?;
    object.put("valueContainsNull", Value::Bool(contains_null))?;
    Ok(object.into_value())
}
