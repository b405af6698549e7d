//! Laws of schemas and their texts.

ghost use Rattle.std.specs.Prelude.{◌≡◌, ℕ, List, Ok};
ghost use Rattle.schema_tree.specs.Limits.{IsWithinLimits};
ghost use Rattle.schema_tree.specs.Printing.{data_of};
ghost use Rattle.schema_tree.specs.Reading.{root_of, schema_of};
ghost use Rattle.schema_tree.specs.Tree.{Tree, Fields, struct};

/// A schema that is read keeps the limits.
pub fn what_is_read_keeps_the_limits()
    ensures { (text : List ℕ) (t : Tree) → schema_of text ≡ Ok t → IsWithinLimits t }
{}

/// A schema within the limits that is printed as JSON reads as itself.
pub fn what_is_printed_reads_again()
    ensures { (fs : Fields) → IsWithinLimits (struct fs) → root_of (data_of (struct fs)) ≡ Ok (struct fs) }
{}
