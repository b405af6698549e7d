//! Primitive types and their names.

ghost use Rattle.std.specs.Prelude.{◌≡◌, IfOk, string_bytes};
ghost use Rattle.schema_tree.specs.Primitives.{digit, plain_number, decimal_in, decimal_of, primitive_of, primitive_name};

use std::alloc::{AllocError, Global};

/// A primitive type (Delta PROTOCOL.md, "Primitive Types").
#[derive(Clone, Copy, Debug, PartialEq, Eq)]
pub enum Primitive {
    /// A text in UTF-8.
    String,
    /// A whole number of 8 bytes.
    Long,
    /// A whole number of 4 bytes.
    Integer,
    /// A whole number of 2 bytes.
    Short,
    /// A whole number of 1 byte.
    Byte,
    /// A truth value.
    Boolean,
    /// Bytes.
    Binary,
    /// A day of the calendar.
    Date,
    /// A moment in microseconds.
    Timestamp,
    /// A number of single precision.
    Float,
    /// A number of double precision.
    Double,
    /// A number of `precision` decimal digits, 1 to 38, of which `scale`, at most all, stand behind the point.
    Decimal { precision: u8, scale: u8 },
}

impl Primitive {
    /// The type of that name; none for another name. A decimal is `decimal(p,s)`, with plain numbers and no
    /// spaces.
    #[tactic(auto, unfolding(crate::specs::Primitives::primitive_of))]
    pub fn from_name(name: &str) -> Option<Primitive>
        ensures { result ≡ primitive_of name.now }
    {
        match name {
            "string" => Some(Primitive::String),
            "long" => Some(Primitive::Long),
            "integer" => Some(Primitive::Integer),
            "short" => Some(Primitive::Short),
            "byte" => Some(Primitive::Byte),
            "boolean" => Some(Primitive::Boolean),
            "binary" => Some(Primitive::Binary),
            "date" => Some(Primitive::Date),
            "timestamp" => Some(Primitive::Timestamp),
            "float" => Some(Primitive::Float),
            "double" => Some(Primitive::Double),
            _ => decimal_of(name.as_bytes()),
        }
    }

    /// The name that a schema's text has for the type.
    pub fn name(&self, alloc: Global) -> Result<String, AllocError>
        ensures { IfOk result (λ name. string_bytes name ≡ primitive_name self.now) }
    {
        match self {
            Primitive::String => String::from_str(alloc, "string"),
            Primitive::Long => String::from_str(alloc, "long"),
            Primitive::Integer => String::from_str(alloc, "integer"),
            Primitive::Short => String::from_str(alloc, "short"),
            Primitive::Byte => String::from_str(alloc, "byte"),
            Primitive::Boolean => String::from_str(alloc, "boolean"),
            Primitive::Binary => String::from_str(alloc, "binary"),
            Primitive::Date => String::from_str(alloc, "date"),
            Primitive::Timestamp => String::from_str(alloc, "timestamp"),
            Primitive::Float => String::from_str(alloc, "float"),
            Primitive::Double => String::from_str(alloc, "double"),
            Primitive::Decimal { precision, scale } => {
                format!(in alloc; "decimal({precision},{scale})")
            }
        }
    }
}

#[tactic(auto, unfolding(crate::specs::Primitives::decimal_of))]
fn decimal_of(name: &[u8]) -> Option<Primitive>
    ensures { result ≡ decimal_of name.now }
{
    decimal_in(name.strip_prefix(b"decimal(")?)
}

/// The decimal that `p,s)` is the rest of the name of.
#[tactic(auto, unfolding(crate::specs::Primitives::decimal_in))]
fn decimal_in(text: &[u8]) -> Option<Primitive>
    ensures { result ≡ decimal_in text.now }
{
    let comma = text.iter().position(|b| *b == b',')?;
    let precision = plain_number(&text[..comma])?;
    let (bracket, inside) = text[comma + 1..].split_last()?;
    if *bracket != b')' {
        return None;
    }
    let scale = plain_number(inside)?;
    if 1 <= precision && precision <= 38 && scale <= precision {
        Some(Primitive::Decimal { precision, scale })
    } else {
        None
    }
}

/// A plain number below 100: no sign, no space, no 0 before another digit.
fn plain_number(text: &[u8]) -> Option<u8>
    ensures { result ≡ plain_number text.now }
{
    match text {
        [a] => digit(*a),
        [b'0', _] => None,
        [a, b] => {
            let tens = digit(*a)?;
            let ones = digit(*b)?;
            Some(tens * 10 + ones)
        }
        _ => None,
    }
}

fn digit(byte: u8) -> Option<u8>
    ensures { result ≡ digit byte }
{
    match byte {
        b'0'..=b'9' => Some(byte - b'0'),
        _ => None,
    }
}
