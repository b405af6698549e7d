//! The types that the protocol numbers.

ghost use Rattle.std.specs.Prelude.{◌≡◌};
ghost use Rattle.thrift_core.specs.Wire.{announced};

use thrift_values::ThriftFault;

/// What a type number announces (Thrift compact protocol, "Struct encoding" and "List and Set").
#[derive(Clone, Copy)]
pub enum WireType {
    /// Numbers 1 and 2. In a field the number is the value.
    Boolean,
    /// Number 3.
    Byte,
    /// Number 4.
    Int16,
    /// Number 5.
    Int32,
    /// Number 6.
    Int64,
    /// Number 7.
    Double,
    /// Number 8.
    Binary,
    /// Numbers 9, a list, and 10, a set.
    List,
    /// Number 11.
    Map,
    /// Number 12.
    Struct,
}

impl WireType {
    /// The type that a number announces. TH1 for every other number.
    #[tactic(auto, unfolding(crate::specs::Wire::announced))]
    pub fn from_number(number: u8) -> Result<WireType, ThriftFault>
        ensures { result ≡ announced number }
    {
        match number {
            1 | 2 => Ok(WireType::Boolean),
            3 => Ok(WireType::Byte),
            4 => Ok(WireType::Int16),
            5 => Ok(WireType::Int32),
            6 => Ok(WireType::Int64),
            7 => Ok(WireType::Double),
            8 => Ok(WireType::Binary),
            9 | 10 => Ok(WireType::List),
            11 => Ok(WireType::Map),
            12 => Ok(WireType::Struct),
            _ => Err(ThriftFault::BadType),
        }
    }
}
