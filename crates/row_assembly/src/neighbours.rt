//! The leaves of a shape as their levels are compared: each with the leaf in front of it.

ghost use Rattle.std.specs.Prelude.{◌≡◌, IfOk};
ghost use Rattle.shred.specs.Views.{shape_view, way_view};
ghost use Rattle.row_assembly.specs.Neighbours.{leaf_levels, shared_steps, tops_in};
ghost use Rattle.row_assembly.specs.Views.{leaf_views};

use crate::assembling::highest;
use shred::{Shape, Step, ways_of};
use std::alloc::{AllocError, Global};

/// What is known of the levels of a leaf.
#[derive(Clone, Copy)]
pub(crate) struct LeafLevels {
    /// The highest level, at which a cell has a value.
    pub(crate) highest: u64,
    /// How many optional fields hold both this leaf and the one in front of it; 0 for the first.
    pub(crate) shared: u64,
}

/// The leaves of a shape, depth first.
pub(crate) fn leaf_levels(alloc: Global, shape: &Shape) -> Result<Vec<LeafLevels>, AllocError>
    ensures { IfOk result (λ v. leaf_views v.items ≡ leaf_levels (shape_view shape.now)) }
{
    let ways = ways_of(alloc, shape)?;
    let mut leaves = Vec::with_capacity(alloc, ways.len())?;
    let mut before: &[Step] = &[];
    for way in &ways {
        leaves.push(LeafLevels {
            highest: highest(way),
            shared: shared_steps(before, way),
        })?;
        before = way;
    }
    Ok(leaves)
}

/// How many steps of the common front of two ways are optional.
fn shared_steps(before: &[Step], way: &[Step]) -> u64
    ensures { result ≡ shared_steps (way_view before.now) (way_view way.now) }
{
    let mut shared = 0;
    for (step, other) in before.iter().zip(way) {
        if step.place != other.place {
            return shared;
        }
        shared += u64::from(step.optional);
    }
    shared
}

/// The highest level of each leaf.
pub(crate) fn highest_each(alloc: Global, leaves: &[LeafLevels]) -> Result<Vec<u64>, AllocError>
    ensures { IfOk result (λ v. v.items ≡ tops_in (leaf_views leaves.now)) }
{
    let mut tops = Vec::with_capacity(alloc, leaves.len())?;
    for leaf in leaves {
        tops.push(leaf.highest)?;
    }
    Ok(tops)
}
