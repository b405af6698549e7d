//! The ways through a shape to its leaves.

ghost use Rattle.std.specs.Prelude.{◌≡◌, ◌++◌, IfOk, OnOk};
ghost use Rattle.shred.specs.Shape.{fields_of};
ghost use Rattle.shred.specs.Ways.{ways, ways_from, field_ways, under};
ghost use Rattle.shred.specs.Views.{shape_view, field_view, field_views, step_view, way_view, way_views};

use crate::shapes::{Shape, ShapeField};
use std::alloc::{AllocError, Global};

/// One step down, from a struct to a field of it.
#[derive(Clone, Copy, Debug)]
pub struct Step {
    /// The place of the field in its struct, from 0.
    pub place: usize,
    /// Whether the field may be null.
    pub optional: bool,
}

/// The ways through a shape to its leaves, depth first. The time is linear in their steps.
pub fn ways_of(alloc: Global, shape: &Shape) -> Result<Vec<Vec<Step>>, AllocError>
    ensures { IfOk result (λ v. way_views v.items ≡ ways (shape_view shape.now)) }
{
    let mut above = Vec::new(alloc);
    let mut found = Vec::new(alloc);
    put_ways(alloc, shape, &mut above, &mut found)?;
    Ok(found)
}

/// Puts the ways to the leaves of a shape behind those before. `above` is the way to the shape.
#[cycle(ways)]
fn put_ways(
    alloc: Global,
    shape: &Shape,
    above: &mut Vec<Step>,
    found: &mut Vec<Vec<Step>>,
) -> Result<(), AllocError>
    ensures ways { OnOk result (way_views found.new.items ≡ way_views found.old.items
        ++ under (way_view above.old.items) (ways (shape_view shape.now))) }
    ensures above { OnOk result (way_view above.new.items ≡ way_view above.old.items) }
{
    match shape {
        Shape::Struct(fields) => put_fields(alloc, fields, above, found),
        Shape::Leaf => {
            let way = Vec::from_slice(alloc, above)?;
            found.push(way)?;
            Ok(())
        }
    }
}

/// Puts the ways to the leaves of fields behind those before.
#[cycle(ways)]
fn put_fields(
    alloc: Global,
    fields: &[ShapeField],
    above: &mut Vec<Step>,
    found: &mut Vec<Vec<Step>>,
) -> Result<(), AllocError>
    ensures ways { OnOk result (way_views found.new.items ≡ way_views found.old.items
        ++ under (way_view above.old.items) (ways_from 0 (fields_of (field_views fields.now)))) }
    ensures above { OnOk result (way_view above.new.items ≡ way_view above.old.items) }
{
    for (place, field) in fields.iter().enumerate() {
        put_field(alloc, place, field, above, found)?;
    }
    Ok(())
}

/// Puts the ways to the leaves of the field at this place behind those before.
#[cycle(ways)]
fn put_field(
    alloc: Global,
    place: usize,
    field: &ShapeField,
    above: &mut Vec<Step>,
    found: &mut Vec<Vec<Step>>,
) -> Result<(), AllocError>
    ensures ways { OnOk result (way_views found.new.items ≡ way_views found.old.items
        ++ under (way_view above.old.items) (field_ways place (field_view field.now))) }
    ensures above { OnOk result (way_view above.new.items ≡ way_view above.old.items) }
{
    above.push(Step {
        place,
        optional: field.optional,
    })?;
    put_ways(alloc, &field.shape, above, found)?;
    above.pop();
    Ok(())
}
