//! Rows whose columns stand side by side: there is no struct in them. Such rows can always be made of their columns.

ghost use Rattle.std.specs.Prelude.{◌≡◌, ◌≤◌, false, not};
ghost use Rattle.shred.specs.Shape.{fields_of};
ghost use Rattle.shred.specs.Views.{field_views, shape_view};
ghost use Rattle.parquet_file.specs.Internal.{are_leaves, is_flat, is_leaf};

use shred::{Shape, ShapeField};

/// Whether no field of the rows is a struct.
pub(crate) fn is_flat(shape: &Shape) -> bool
    ensures { result ≡ is_flat (shape_view shape.now) }
{
    match shape {
        Shape::Leaf => false,
        Shape::Struct(fields) => are_leaves(fields),
    }
}

fn are_leaves(fields: &[ShapeField]) -> bool
    ensures { result ≡ are_leaves (fields_of (field_views fields.now)) }
{
    for field in fields {
        if is_struct(&field.shape) {
            return false;
        }
    }
    true
}

/// How many of so many rows needn't be made where those before the one of the number `first` aren't wanted.
pub(crate) fn rows_to_pass(shape: &Shape, count: u64, first: u64) -> u64
    ensures few { result ≤ count }
    ensures before { result ≤ first }
    ensures flat { is_flat (shape_view shape.now) ≡ false → result ≡ 0 }
{
    if is_flat(shape) { first.min(count) } else { 0 }
}

fn is_struct(shape: &Shape) -> bool
    ensures { result ≡ not (is_leaf (shape_view shape.now)) }
{
    matches!(shape, Shape::Struct(_))
}
