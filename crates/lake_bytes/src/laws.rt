//! Laws of the spellings, each a function with an empty body whose contract is the law.

ghost use Rattle.std.specs.Prelude.{◌≡◌, ℕ, ℤ, ◌<◌, ◌≤◌, ◌^◌, ◌++◌, All, List, Ok, length, FitsSigned};
ghost use Rattle.std.specs.Int.{w32, w64, to_le_bytes, cast_unsigned};
ghost use Rattle.lake_bytes.specs.Reading.{ReadsFront};
ghost use Rattle.outcomes.specs.Bytes.{IsBytes};
ghost use Rattle.lake_bytes.specs.Varint.{IsVarint, SpellsNumber, varint_bytes, varint_at};
ghost use Rattle.lake_bytes.specs.Hybrid.{HoldsValues, hybrid_at, hybrid_bytes};
ghost use Rattle.lake_bytes.specs.Zigzag.{SpellsSigned, zigzag, signed_at};
ghost use Rattle.lake_bytes.specs.LittleEndian.{little_at, signed_little_at};

/// No varint begins another, so bytes have one reading at most.
pub fn one_varint_in_front()
    ensures { (a b x y : List ℕ) (m n : ℕ) → IsVarint a m → IsVarint b n → a ++ x ≡ b ++ y → (a ≡ b) × (x ≡ y) × (m ≡ n) }
{}

/// No spelling of a signed number begins another.
pub fn one_signed_number_in_front()
    ensures { (width : ℕ) (a b x y : List ℕ) (m n : ℤ) → SpellsSigned width a m → SpellsSigned width b n → a ++ x ≡ b ++ y → (a ≡ b) × (x ≡ y) × (m ≡ n) }
{}

/// Reading from the left gives a number exactly where a front of the bytes spells it.
pub fn a_number_is_read_where_it_stands()
    ensures found { (bytes rest : List ℕ) (n : ℕ) → IsBytes bytes → varint_at bytes ≡ Ok (n, rest) → ReadsFront SpellsNumber bytes n rest }
    ensures stands { (front rest : List ℕ) (n : ℕ) → SpellsNumber front n → varint_at (front ++ rest) ≡ Ok (n, rest) }
    ensures signed_found { (width : ℕ) (bytes rest : List ℕ) (z : ℤ) → IsBytes bytes → signed_at width bytes ≡ Ok (z, rest) → ReadsFront (SpellsSigned width) bytes z rest }
    ensures signed_stands { (width : ℕ) (front rest : List ℕ) (z : ℤ) → SpellsSigned width front z → signed_at width (front ++ rest) ≡ Ok (z, rest) }
{}

/// What is written for a number spells it, and no spelling of it is shorter.
pub fn varint_is_shortest()
    ensures spells { (n : ℕ) → n < 2 ^ 64 → SpellsNumber (varint_bytes n) n }
    ensures shortest { (n : ℕ) (other : List ℕ) → n < 2 ^ 64 → IsVarint other n → length (varint_bytes n) ≤ length other }
{}

/// What is written for a number is read again as that number, whatever follows it.
pub fn varint_is_read_again()
    ensures { (n : ℕ) (rest : List ℕ) → n < 2 ^ 64 → varint_at (varint_bytes n ++ rest) ≡ Ok (n, rest) }
{}

/// What is written for a signed number of so many bits is read again as that number, whatever follows it.
pub fn zigzag_is_read_again()
    ensures { (width : ℕ) (z : ℤ) (rest : List ℕ) → zigzag z < 2 ^ 64 → zigzag z < 2 ^ width → signed_at width (varint_bytes (zigzag z) ++ rest) ≡ Ok (z, rest) }
{}

/// What is written in four or eight bytes is read again, whatever follows it.
pub fn little_endian_is_read_again()
    ensures four { (n : ℕ) (rest : List ℕ) → n < 2 ^ 32 → little_at w32 (to_le_bytes w32 n ++ rest) ≡ Ok (n, rest) }
    ensures eight { (n : ℕ) (rest : List ℕ) → n < 2 ^ 64 → little_at w64 (to_le_bytes w64 n ++ rest) ≡ Ok (n, rest) }
    ensures signed_four { (z : ℤ) (rest : List ℕ) → FitsSigned w32 z → signed_little_at w32 (to_le_bytes w32 (cast_unsigned w32 z) ++ rest) ≡ Ok (z, rest) }
    ensures signed_eight { (z : ℤ) (rest : List ℕ) → FitsSigned w64 z → signed_little_at w64 (to_le_bytes w64 (cast_unsigned w64 z) ++ rest) ≡ Ok (z, rest) }
{}

/// Reading a hybrid from the left gives values exactly where a front of the bytes is runs of enough, and so bytes hold
/// one list of so many values at most. What is written for values is read again as them, whatever follows it.
pub fn a_hybrid_is_read_where_it_stands()
    ensures found { (width count : ℕ) (bytes values rest : List ℕ) → IsBytes bytes
        → hybrid_at width count bytes ≡ Ok (values, rest) → HoldsValues width count bytes values }
    ensures stands { (width count : ℕ) (bytes values : List ℕ) → HoldsValues width count bytes values
        → (rest : List ℕ) × (hybrid_at width count bytes ≡ Ok (values, rest)) }
    ensures one { (width count : ℕ) (bytes values others : List ℕ) → HoldsValues width count bytes values
        → HoldsValues width count bytes others → values ≡ others }
    ensures again { (width : ℕ) (values rest : List ℕ) → All (λ value. value < 2 ^ width) values
        → length values < 2 ^ 63
        → hybrid_at width (length values) (hybrid_bytes width values ++ rest) ≡ Ok (values, rest) }
{}
