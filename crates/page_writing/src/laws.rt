//! A law of the pages that are written, a function with an empty body whose contract is the law.

ghost use Rattle.std.specs.Prelude.{◌≡◌, ◌≤◌, ◌++◌, ℕ, pos, List, length, Ok};
ghost use Rattle.shred.specs.Columns.{Column};
ghost use Rattle.parquet_pages.specs.Pages.{ChunkHolds, Leaf, Suits, highest};
ghost use Rattle.parquet_pages.specs.Reading.{chunk_at};
ghost use Rattle.page_writing.specs.Writing.{IsWhole, chunk_written};

/// The pages that are written for a whole column hold it, whatever stands before them, 4 bytes at least, and behind
/// them; so they are read again as it, if it suits the leaf.
pub fn a_written_chunk_holds_its_column()
    ensures holds { (l : Leaf) (c : Column) (before written behind : List ℕ) → highest l ≤ 16 → IsWhole l c
        → chunk_written l.leaf_type (highest l) c ≡ Ok written → 4 ≤ length before
        → ChunkHolds l (before ++ (written ++ behind)) (pos (length before)) c }
    ensures again { (l : Leaf) (c : Column) (before written behind : List ℕ) → highest l ≤ 16 → IsWhole l c → Suits l c
        → chunk_written l.leaf_type (highest l) c ≡ Ok written → 4 ≤ length before
        → chunk_at l (before ++ (written ++ behind)) (pos (length before)) (length c.levels) ≡ Ok c }
{}
