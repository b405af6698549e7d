//! Schemas as text.

use byte_words::{LineFault, Transcript, Words};
use schema_tree::{Leaf, ReadError, Schema, SchemaFault};
use std::alloc::Global;
use std::str::from_utf8;

/// Tells the text of a schema, as it is printed, and each of its leaves. They are told from a copy, so that cases look
/// at copies too.
pub fn tell_schema(bytes: &[u8], told: &mut Transcript) -> Result<(), LineFault> {
    let schema = schema_of(bytes, told)?.copy_into(told.alloc())?;
    told.put(&schema.to_text(told.alloc())?);
    for leaf in &schema.leaves(told.alloc())? {
        tell_leaf(leaf, told);
    }
    Ok(())
}

/// The schema and the bytes of `SCHEMA BYTES`.
pub fn schema_and_bytes(
    words: &mut Words<'_>,
    told: &mut Transcript,
) -> Result<(Schema<Global>, Vec<u8>), LineFault> {
    let schema = words.word_bytes();
    let bytes = words.rest_bytes()?;
    Ok((schema_of(&schema, told)?, bytes))
}

/// The schema that bytes are the text of; or tells why they are of none.
pub fn schema_of(bytes: &[u8], told: &mut Transcript) -> Result<Schema<Global>, LineFault> {
    let schema = match from_utf8(bytes) {
        Ok(text) => Schema::from_text(told.alloc(), text),
        Err(_) => Err(ReadError::Fault(SchemaFault::BadJson)),
    };
    told.given(schema)
}

/// Tells a leaf: its path, and how many of the fields on it may be null.
pub fn tell_leaf(leaf: &Leaf<'_, Global>, told: &mut Transcript) {
    told.line("leaf ");
    let mut gap = "";
    for name in &leaf.names {
        told.put(gap);
        told.put(name);
        gap = ".";
    }
    told.show(", ", &leaf.nullables);
    told.put(" nullable");
}
