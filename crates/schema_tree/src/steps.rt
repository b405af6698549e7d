//! The leaves of a type.

ghost use Rattle.std.specs.Prelude.{◌≡◌, ◌+◌, ◌<◌, ◌^◌, [], ◌∷◌, ◌++◌, map, OnOk};
ghost use Rattle.schema_tree.specs.Leaves.{bare_leaf, leaves_of, leaves_of_fields, leaves_of_column};
ghost use Rattle.schema_tree.specs.Internal.{leaf_under};
ghost use Rattle.schema_tree.specs.Limits.{levels, levels_of_fields};
ghost use Rattle.schema_tree.specs.Schema.{leaf_view};
ghost use Rattle.schema_tree.specs.Tree.{fields_of};
ghost use Rattle.schema_tree.specs.View.{view, field_view, field_views};

use crate::node::{Field, Node};
use std::alloc::{AllocError, Allocator};

/// A leaf of a type. Only structs make paths, since only trees of structs and primitive types have rows: an
/// array or a map stands as one leaf.
#[derive(Drop)]
pub struct Leaf<'a, A: Allocator> {
    /// The names of the fields that lead to the leaf, outermost first.
    pub names: Vec<&'a str, A>,
    /// How many of these fields may be null, 0 to 16.
    pub nullables: u32,
}

/// Puts the leaves of the fields behind those before. `above` are the fields that hold them.
#[cycle(leaves)]
pub(crate) fn put_leaves<'a, A: Allocator, B: Allocator + Copy>(
    fields: &'a [Field<A>],
    alloc: B,
    above: &mut Vec<&'a str, B>,
    nullables: u32,
    leaves: &mut Vec<Leaf<'a, B>, B>,
) -> Result<(), AllocError>
    requires { nullables + levels_of_fields (fields_of (field_views fields.now)) + 1 < 2 ^ 32 }
    ensures leaves { OnOk result (map leaf_view leaves.new.items ≡ map leaf_view leaves.old.items
        ++ map (leaf_under (map (λ s. s.now) above.old.items) nullables)
        (leaves_of_fields (fields_of (field_views fields.now)))) }
    ensures above { OnOk result (map (λ s. s.now) above.new.items ≡ map (λ s. s.now) above.old.items) }
{
    for field in fields {
        put_field(field, alloc, above, nullables, leaves)?;
    }
    Ok(())
}

/// Puts the leaves of a field behind those before.
#[cycle(leaves)]
fn put_field<'a, A: Allocator, B: Allocator + Copy>(
    field: &'a Field<A>,
    alloc: B,
    above: &mut Vec<&'a str, B>,
    nullables: u32,
    leaves: &mut Vec<Leaf<'a, B>, B>,
) -> Result<(), AllocError>
    requires { nullables + levels (field_view field.now).data_type + 1 < 2 ^ 32 }
    ensures leaves { OnOk result (map leaf_view leaves.new.items ≡ map leaf_view leaves.old.items
        ++ map (leaf_under (map (λ s. s.now) above.old.items) nullables)
        (leaves_of_column (field_view field.now))) }
    ensures above { OnOk result (map (λ s. s.now) above.new.items ≡ map (λ s. s.now) above.old.items) }
{
    above.push(field.name.as_str())?;
    put_type(
        &field.data_type,
        alloc,
        above,
        nullables + u32::from(field.nullable),
        leaves,
    )?;
    above.pop();
    Ok(())
}

/// Puts the leaves of a type behind those before.
#[cycle(leaves)]
fn put_type<'a, A: Allocator, B: Allocator + Copy>(
    node: &'a Node<A>,
    alloc: B,
    above: &mut Vec<&'a str, B>,
    nullables: u32,
    leaves: &mut Vec<Leaf<'a, B>, B>,
) -> Result<(), AllocError>
    requires { nullables + levels (view node.now) < 2 ^ 32 }
    ensures leaves { OnOk result (map leaf_view leaves.new.items ≡ map leaf_view leaves.old.items
        ++ map (leaf_under (map (λ s. s.now) above.old.items) nullables) (leaves_of (view node.now))) }
    ensures above { OnOk result (map (λ s. s.now) above.new.items ≡ map (λ s. s.now) above.old.items) }
{
    match node {
        Node::Struct(fields) => put_leaves(fields, alloc, above, nullables, leaves),
        Node::Leaf(_) => put_leaf(alloc, above, nullables, leaves),
        Node::Array { .. } => put_leaf(alloc, above, nullables, leaves),
        Node::Map { .. } => put_leaf(alloc, above, nullables, leaves),
    }
}

/// Puts one leaf behind those before.
fn put_leaf<'a, B: Allocator + Copy>(
    alloc: B,
    above: &[&'a str],
    nullables: u32,
    leaves: &mut Vec<Leaf<'a, B>, B>,
) -> Result<(), AllocError>
    ensures { OnOk result (map leaf_view leaves.new.items ≡ map leaf_view leaves.old.items
        ++ map (leaf_under (map (λ s. s.now) above.now) nullables) (bare_leaf ∷ [])) }
{
    let names = Vec::from_slice(alloc, above)?;
    leaves.push(Leaf { names, nullables })?;
    Ok(())
}
