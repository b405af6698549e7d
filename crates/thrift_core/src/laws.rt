//! Laws of the spellings, each a function with an empty body whose contract is the law.

ghost use Rattle.std.specs.Prelude.{◌≡◌, ℕ, List, ◌++◌};
ghost use Rattle.thrift_values.specs.Tree.{Tree};
ghost use Rattle.thrift_core.specs.Spelling.{Spells};
ghost use Rattle.thrift_core.specs.declared.wire.WireType.{WireType};

/// No bytes spell two values of a type, and no front of a spelling is a spelling of another value.
pub fn one_tree_in_front()
    ensures { (type : WireType) (a b x y : List ℕ) (s t : Tree) → Spells type a s → Spells type b t
        → a ++ x ≡ b ++ y → (a ≡ b) × (s ≡ t) × (x ≡ y) }
{}
