//! The schema of a table.

ghost use Rattle.std.specs.Prelude.{◌≡◌, ◌≤◌, map, IfOk, IsTrue, false, string_bytes, Some};
ghost use Rattle.serde_json.specs.Read.{read, max_depth};
ghost use Rattle.serde_json.specs.Data.{depth};
ghost use Rattle.serde_json.specs.View.{view};
ghost use Rattle.serde_json.specs.Written.{has_float, compact_text};
ghost use Rattle.schema_tree.specs.Leaves.{leaves_of};
ghost use Rattle.json.specs.Lex.{tokens};
ghost use Rattle.json.specs.Print.{print};
ghost use Rattle.outcomes.specs.Outcome.{Gives};
ghost use Rattle.schema_tree.specs.Fault.{says};
ghost use Rattle.schema_tree.specs.Limits.{IsWithinLimits};
ghost use Rattle.schema_tree.specs.Printing.{data_of};
ghost use Rattle.schema_tree.specs.Reading.{schema_of, root_of};
ghost use Rattle.schema_tree.specs.Sameness.{has_fraction};
ghost use Rattle.schema_tree.specs.Tree.{struct, fields_of};
ghost use Rattle.schema_tree.specs.View.{field_views};

use crate::copying::copy_fields;
use crate::counts::Counts;
use crate::fault::{ReadError, SchemaFault};
use crate::node::Field;
use crate::printing::{items_of, struct_value};
use crate::reading::needed_text;
use crate::sameness::same_fields;
use crate::steps::{Leaf, put_leaves};
use serde_json::Value;
use std::alloc::{AllocError, Allocator, Global};

/// The most levels of types below the root: a top field is at the first.
pub const MAX_DEPTH: u32 = 16;

/// The schema of a table: a struct, within the limits (Delta PROTOCOL.md, "Schema Serialization Format").
pub struct Schema<A: Allocator> {
    pub(crate) fields: Vec<Field<A>, A>,
    ghost within_limits: { IsWithinLimits (struct (fields_of (field_views fields.items))) },
}

// By hand, so that a drop is one call to prove and not all that it holds (docs/GATE.md).
impl<A: Allocator> Drop for Schema<A> {
    fn drop(self) {
        let Schema { fields: _ } = self;
    }
}

impl Schema<Global> {
    ghost use Rattle.schema_tree.specs.Schema.{tree_of};

    /// Reads a schema's text (Delta PROTOCOL.md, "Schema Serialization Format"). An absent `nullable`,
    /// `containsNull` or `valueContainsNull` is true, and an absent `metadata` is `{}`; null is refused there like
    /// any other value of another kind. Other keys are skipped.
    ///
    /// G1 to G6 for the first fault, depth first: at a type its depth (at most 16, a top field is at 1), the
    /// counts (at most 1,024 types with the root, of them 256 given by a text), its kind and its fields in turn; at
    /// a field its name, whether it stands twice, its nullability, its metadata, and then its type. `Memory` where
    /// a growth was refused. The time is linear in the text, but for the names of one struct, which are compared
    /// pairwise.
    pub fn from_text(alloc: Global, text: &str) -> Result<Schema<Global>, ReadError>
        // The schema or the fault is the one that the text has, unless memory runs out.
        ensures { Gives says tree_of result (schema_of text.now) }
    {
        let value = match Value::from_str(alloc, text) {
            Ok(value) => value,
            Err(e) if e.is_memory() => return Err(ReadError::Memory),
            Err(_) => return Err(SchemaFault::BadJson.into()),
        };
        Schema::from_value(alloc, &value)
    }

    fn from_value(alloc: Global, value: &Value) -> Result<Schema<Global>, ReadError>
        requires { depth (view value.now) ≤ max_depth }
        ensures { Gives says tree_of result (root_of (view value.now)) }
    {
        let mut counts = Counts {
            nodes: 0,
            leaves: 0,
        };
        counts.count(value)?;
        if needed_text(value, "type")? != "struct" {
            return Err(SchemaFault::bad_type().into());
        }
        let fields = counts.fields(alloc, MAX_DEPTH, value)?;
        Ok(Schema { fields })
    }
}

impl<A: Allocator> Schema<A> {
    ghost use Rattle.schema_tree.specs.Schema.{tree_of, columns_of, leaf_view};

    /// The top fields, in order.
    pub fn fields(&self) -> &[Field<A>]
        ensures { field_views result.now ≡ columns_of self.now }
    {
        &self.fields
    }

    /// The schema's JSON text (Delta PROTOCOL.md, "Schema Serialization Format"): no spaces, and keys in order of
    /// bytes where [`Schema::has_fraction`] is false. It fails only for want of memory; the time is linear in the text.
    pub fn to_text(&self, alloc: Global) -> Result<String, AllocError>
        // It is read as the same schema.
        ensures reads { IfOk result (λ s. schema_of (string_bytes s) ≡ Ok (tree_of self.now)) }
        ensures value { IfOk result (λ s. read (string_bytes s) ≡ Some (data_of (tree_of self.now))) }
        ensures compact { IfOk result (λ s. string_bytes s ≡ print (tokens (string_bytes s))) }
        ensures text { IfOk result (λ s. has_float (data_of (tree_of self.now)) ≡ false
            → string_bytes s ≡ compact_text (data_of (tree_of self.now))) }
    {
        let items = items_of(&self.fields, alloc)?;
        struct_value(alloc, items)?.to_string(alloc)
    }

    /// The same schema in another allocator. It fails only for want of memory; the time is linear in the schema.
    pub fn copy_into<B: Allocator + Copy>(&self, alloc: B) -> Result<Schema<B>, AllocError>
        ensures { IfOk result (λ s. tree_of s ≡ tree_of self.now) }
    {
        let fields = copy_fields(&self.fields, alloc)?;
        Ok(Schema { fields })
    }

    /// Whether both are the same schema: names, order, types, nullability and metadata agree. It takes no
    /// memory, and the time is linear in the shorter one.
    pub fn same<B: Allocator>(&self, other: &Schema<B>) -> bool
        ensures sound { IsTrue result → tree_of self.now ≡ tree_of other.now }
        // How a number with a fraction or an exponent in metadata is compared is left open.
        ensures complete { has_fraction (tree_of self.now) ≡ false
            → tree_of self.now ≡ tree_of other.now → IsTrue result }
    {
        same_fields(&self.fields, &other.fields)
    }

    /// The leaves, depth first. It fails only for want of memory; the time is linear in the schema times its depth.
    pub fn leaves<B: Allocator + Copy>(&self, alloc: B) -> Result<Vec<Leaf<'_, B>, B>, AllocError>
        ensures { IfOk result (λ v. map leaf_view v.items ≡ leaves_of (tree_of self.now)) }
    {
        let mut above = Vec::new(alloc);
        let mut leaves = Vec::new(alloc);
        put_leaves(&self.fields, alloc, &mut above, 0, &mut leaves)?;
        Ok(leaves)
    }
}
