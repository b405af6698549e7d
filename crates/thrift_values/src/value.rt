//! The values that the protocol carries.

use std::alloc::Allocator;

/// A value of the Thrift compact protocol: a tree, which owns what is in it, all of it in one allocator's memory.
#[cycle(tree)]
#[derive(Drop)]
pub enum TValue<A: Allocator> {
    /// A truth value.
    Bool(bool),
    /// A whole number of any width.
    Int(i64),
    /// A binary.
    Bytes(Vec<u8, A>),
    /// A list or a set.
    List(Vec<TValue<A>, A>),
    /// A map, its keys and values in the order of the bytes.
    Map(Vec<MapEntry<A>, A>),
    /// A struct, its fields in the order of the bytes. An id may stand twice: see [`TValue::field`].
    Struct(Vec<Field<A>, A>),
    /// A double, of which nothing is kept.
    Skipped,
}

/// A key of a map and its value.
#[cycle(tree)]
#[derive(Drop)]
pub struct MapEntry<A: Allocator> {
    /// The key.
    pub key: TValue<A>,
    /// Its value.
    pub value: TValue<A>,
}

/// A field of a struct.
#[cycle(tree)]
#[derive(Drop)]
pub struct Field<A: Allocator> {
    /// The field's id.
    pub id: i16,
    /// Its value.
    pub value: TValue<A>,
}
