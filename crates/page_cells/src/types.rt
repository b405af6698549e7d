//! The types whose values a file can hold, and how it keeps them.

ghost use Rattle.std.specs.Prelude.{◌≡◌};
ghost use Rattle.page_cells.specs.Types.{leaf_type, physical_type, type_number, converted_type};

use schema_tree::Primitive;

/// A type whose values a file can hold (Delta PROTOCOL.md, "Primitive Types").
#[derive(Clone, Copy, Debug, PartialEq, Eq)]
pub enum LeafType {
    /// A truth value.
    Boolean,
    /// A whole number of 1 byte.
    Byte,
    /// A whole number of 2 bytes.
    Short,
    /// A whole number of 4 bytes.
    Integer,
    /// A whole number of 8 bytes.
    Long,
    /// A day, counted from 1970-01-01.
    Date,
    /// A text in UTF-8.
    String,
    /// Bytes.
    Binary,
}

/// How a page keeps a value (Apache Parquet, "Types").
#[derive(Clone, Copy, Debug, PartialEq, Eq)]
pub enum PhysicalType {
    /// A bit.
    Boolean,
    /// Four bytes.
    Int32,
    /// Eight bytes.
    Int64,
    /// Bytes behind their length.
    ByteArray,
}

impl LeafType {
    /// The leaf of a primitive type; none where no file of this program holds its values.
    pub fn of(primitive: Primitive) -> Option<LeafType>
        ensures { result ≡ leaf_type primitive }
    {
        match primitive {
            Primitive::Boolean => Some(LeafType::Boolean),
            Primitive::Byte => Some(LeafType::Byte),
            Primitive::Short => Some(LeafType::Short),
            Primitive::Integer => Some(LeafType::Integer),
            Primitive::Long => Some(LeafType::Long),
            Primitive::Date => Some(LeafType::Date),
            Primitive::String => Some(LeafType::String),
            Primitive::Binary => Some(LeafType::Binary),
            _ => None,
        }
    }

    /// How a page keeps its values.
    pub fn physical_type(self) -> PhysicalType
        ensures { result ≡ physical_type self }
    {
        match self {
            LeafType::Boolean => PhysicalType::Boolean,
            LeafType::Byte | LeafType::Short | LeafType::Integer | LeafType::Date => {
                PhysicalType::Int32
            }
            LeafType::Long => PhysicalType::Int64,
            LeafType::String | LeafType::Binary => PhysicalType::ByteArray,
        }
    }

    /// The number of its converted type, if it has one (Apache Parquet, ConvertedType).
    pub fn converted_type(self) -> Option<i64>
        ensures { result ≡ converted_type self }
    {
        match self {
            LeafType::String => Some(0),
            LeafType::Date => Some(6),
            LeafType::Byte => Some(15),
            LeafType::Short => Some(16),
            _ => None,
        }
    }
}

impl PhysicalType {
    /// Its number (Apache Parquet, Type).
    pub fn number(self) -> i64
        ensures { result ≡ type_number self }
    {
        match self {
            PhysicalType::Boolean => 0,
            PhysicalType::Int32 => 1,
            PhysicalType::Int64 => 2,
            PhysicalType::ByteArray => 6,
        }
    }
}
