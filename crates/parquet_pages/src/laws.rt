//! A law of pages, a function with an empty body whose contract is the law.

ghost use Rattle.std.specs.Prelude.{◌≡◌, ℕ, ℤ, List, length};
ghost use Rattle.shred.specs.Columns.{Column};
ghost use Rattle.parquet_pages.specs.Pages.{ChunkHolds, Leaf, Suits};

/// A chunk's pages hold one column of so many values at most that suits the leaf.
pub fn a_chunk_holds_one_column()
    ensures { (l : Leaf) (given : List ℕ) (stated : ℤ) (c other : Column) → ChunkHolds l given stated c
        → ChunkHolds l given stated other
        → Suits l c → Suits l other → length c.levels ≡ length other.levels → c ≡ other }
{}
