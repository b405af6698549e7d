//! Types, as a tree that owns what is in it.

use crate::primitive::Primitive;
use field_metadata::Metadata;
use std::alloc::Allocator;

/// A type (Delta PROTOCOL.md, "Schema Serialization Format").
#[cycle(tree)]
#[derive(Drop)]
pub enum Node<A: Allocator> {
    /// A primitive type.
    Leaf(Primitive),
    /// A struct, its fields in order.
    Struct(Vec<Field<A>, A>),
    /// An array: the type of its elements, and whether these may be null.
    Array {
        element: Box<Node<A>, A>,
        contains_null: bool,
    },
    /// A map: the types of its keys and of its values, and whether the values may be null.
    Map {
        key: Box<Node<A>, A>,
        value: Box<Node<A>, A>,
        value_contains_null: bool,
    },
}

/// A field of a struct (Delta PROTOCOL.md, "Struct Field").
#[cycle(tree)]
#[derive(Drop)]
pub struct Field<A: Allocator> {
    /// The name. Names are compared by their bytes.
    pub name: String<A>,
    /// The type.
    pub data_type: Node<A>,
    /// Whether it may be null.
    pub nullable: bool,
    /// What is told of the field.
    pub metadata: Metadata<A>,
}
