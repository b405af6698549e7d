//! A leaf of a table, as a file keeps it.

ghost use Rattle.std.specs.Prelude.{◌≡◌};
ghost use Rattle.parquet_pages.specs.Pages.{highest};
ghost use Rattle.parquet_pages.specs.Views.{leaf_view};

use page_cells::LeafType;

/// A leaf of a table, and which nodes on the way to it may be null in a file.
#[derive(Clone, Copy)]
pub struct Leaf<'a> {
    /// The type of its values.
    pub leaf_type: LeafType,
    /// For each node on the way, from the top, that may be null in the file: whether the table lets it be null.
    pub nullable: &'a [bool],
}

impl Leaf<'_> {
    /// The highest definition level (Apache Parquet, "Nested Encoding"): at it nothing on the way is null.
    pub fn highest(&self) -> u64
        ensures { result ≡ highest (leaf_view self.now) }
    {
        self.nullable.len() as u64
    }
}
