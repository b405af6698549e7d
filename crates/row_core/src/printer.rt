//! Rows as JSON text, written into a buffer.

ghost use Rattle.std.specs.Prelude.{◌≡◌, ◌++◌, true, IfOk, OnOk};
ghost use Rattle.json.specs.Tree.{json_tokens, members_tokens};
ghost use Rattle.json_fields.specs.Printing.{put_fields};
ghost use Rattle.row_core.specs.Conforms.{are_values};
ghost use Rattle.row_core.specs.Printer.{layout_view, layout_views, members_data, printed, PrintsRows, PrintsType};
ghost use Rattle.row_core.specs.Printing.{fields_data, leaf_data};
ghost use Rattle.row_core.specs.Rows.{Row, Values, values_of};
ghost use Rattle.row_core.specs.Views.{value_view, row_views};
ghost use Rattle.schema_tree.specs.Schema.{tree_of};
ghost use Rattle.schema_tree.specs.Tree.{fields_of};
ghost use Rattle.schema_tree.specs.View.{view, field_views};
ghost use Rattle.serde_json.specs.Data.{no_members};
ghost use Rattle.serde_json.specs.Written.{compact_text, outline, members_outline};

use crate::value::Value;
use json::Writer;
use schema_tree::{Field, Node, Schema};
use std::alloc::{AllocError, Allocator, Global};
use std::collections::BTreeMap;

/// Where a value stands among the values of its struct, and how it is printed.
#[cycle(layout)]
#[derive(Drop)]
pub(crate) struct Layout {
    place: usize,
    /// What is printed of a struct, in the order of the names' bytes. A type that is no struct has none.
    members: BTreeMap<String, Layout>,
}

/// How the rows of a schema are printed: the fields of each struct in the order of their names' bytes. It is made
/// once for many rows.
#[derive(Drop)]
pub struct RowPrinter {
    row: Layout,
}

impl RowPrinter {
    /// The printer of a schema's rows. A row that conforms is printed as an object with each field of the schema, a
    /// null as null and bytes as a hexadecimal text in lower case, and is read again as itself. The time is linear in
    /// the schema, but for the places of the names in each struct.
    pub fn of_schema<A: Allocator>(
        alloc: Global,
        schema: &Schema<A>,
    ) -> Result<RowPrinter, AllocError>
        ensures { IfOk result (λ p. PrintsRows p (tree_of schema.now)) }
    {
        let members = members_of(alloc, schema.fields())?;
        Ok(RowPrinter {
            row: Layout { place: 0, members },
        })
    }

    /// Writes a row as JSON behind what the buffer holds, with no space. The time is linear in the row and in the
    /// text, and up to 16 KiB of the buffer are readied for it, so rows are best written into a small buffer that is
    /// used again. Only a value that is bytes takes memory besides the buffer's.
    pub fn write(&self, alloc: Global, row: &Value, out: Vec<u8>) -> Result<Vec<u8>, AllocError>
        ensures { IfOk result (λ bytes. bytes.items
            ≡ out.items ++ compact_text (printed self.now (value_view row.now))) }
    {
        let mut writer = Writer::new(out);
        write_value(alloc, &self.row, row, &mut writer)?;
        Ok(writer.into_inner())
    }
}

/// How the values of a type are printed that stand at a place.
#[cycle(order)]
fn layout_of<A: Allocator>(
    alloc: Global,
    place: usize,
    node: &Node<A>,
) -> Result<Layout, AllocError>
    ensures place { IfOk result (λ l. (layout_view l).place ≡ place) }
    ensures prints { IfOk result (λ l. PrintsType (layout_view l).printed (view node.now)) }
{
    let members = match node {
        Node::Struct(fields) => members_of(alloc, fields)?,
        Node::Leaf(_) => BTreeMap::new(alloc),
        Node::Array { .. } => BTreeMap::new(alloc),
        Node::Map { .. } => BTreeMap::new(alloc),
    };
    Ok(Layout { place, members })
}

/// What is printed of a struct with these fields.
#[cycle(order)]
fn members_of<A: Allocator>(
    alloc: Global,
    fields: &[Field<A>],
) -> Result<BTreeMap<String, Layout>, AllocError>
    // The values of a struct are printed as its fields put into an object in turn.
    ensures { IfOk result (λ m. (vs : Values) → are_values (fields_of (field_views fields.now)) vs ≡ true
        → members_data (layout_views m.entries) vs
        ≡ put_fields no_members (fields_data (fields_of (field_views fields.now)) vs)) }
{
    let mut members = BTreeMap::new(alloc);
    for (i, field) in fields.iter().enumerate() {
        let layout = layout_of(alloc, i, &field.data_type)?;
        let name = String::from_str(alloc, field.name.as_str())?;
        members.insert(name, layout)?;
    }
    Ok(members)
}

/// A value and all that is in it.
#[cycle(write)]
fn write_value(
    alloc: Global,
    layout: &Layout,
    value: &Value,
    out: &mut Writer,
) -> Result<(), AllocError>
    ensures ok { OnOk result (out.new.tokens
        ≡ out.old.tokens ++ json_tokens (outline ((layout_view layout.now).printed (value_view value.now)))) }
    ensures before { out.new.before ≡ out.old.before }
{
    match value {
        Value::Struct(values) => {
            out.begin_object()?;
            write_members(alloc, &layout.members, values, out)
        }
        _ => write_leaf(alloc, value, out),
    }
}

/// The members of an object, and its end.
#[cycle(write)]
fn write_members(
    alloc: Global,
    members: &BTreeMap<String, Layout>,
    values: &[Value],
    out: &mut Writer,
) -> Result<(), AllocError>
    ensures ok { OnOk result (out.new.tokens
        ≡ out.old.tokens ++ members_tokens (members_outline (members_data (layout_views members.now.entries)
        (values_of (row_views values.now))))) }
    ensures before { out.new.before ≡ out.old.before }
{
    for (name, layout) in members.iter() {
        out.key(name.as_str())?;
        let written = match values.get(layout.place) {
            Some(value) => write_value(alloc, layout, value, out),
            None => write_leaf(alloc, &Value::Null, out),
        };
        written?;
    }
    out.end_object()
}

/// A value that is no struct.
fn write_leaf(alloc: Global, value: &Value, out: &mut Writer) -> Result<(), AllocError>
    ensures ok { OnOk result (out.new.tokens
        ≡ out.old.tokens ++ json_tokens (outline (leaf_data (value_view value.now)))) }
    ensures before { out.new.before ≡ out.old.before }
{
    match value {
        Value::Null => out.null(),
        Value::Bool(truth) => out.boolean(*truth),
        Value::Int(whole) => out.i64(*whole),
        Value::Text(text) => out.string(text.as_str()),
        Value::Bytes(bytes) => {
            let text = hex::encode(alloc, bytes.as_slice())?;
            out.string(text.as_str())
        }
        Value::Struct(_) => out.null(),
    }
}
