//! The footers of Parquet files as text.

use byte_words::{LineFault, Transcript};
use parquet_footer::{ColumnChunk, Footer, RowGroup, SchemaElement};

/// Tells what a file's footer says: how many rows it has, the nodes of the schema, and each row group with its chunks.
pub fn tell_footer(bytes: &[u8], told: &mut Transcript) -> Result<(), LineFault> {
    let footer = told.given(Footer::read(told.alloc(), bytes))?;
    told.show("", &footer.num_rows);
    told.put(" rows");
    for node in &footer.schema {
        tell_node(node, told);
    }
    for group in &footer.row_groups {
        tell_group(group, told);
        for chunk in &group.columns {
            tell_chunk(chunk, told);
        }
    }
    Ok(())
}

fn tell_node(node: &SchemaElement, told: &mut Transcript) {
    told.line("node ");
    told.quoted(&node.name);
    if let Some(number) = node.physical_type {
        told.show(", type ", &number);
    }
    if let Some(number) = node.repetition_type {
        told.show(", repetition ", &number);
    }
    told.show(", ", &node.num_children);
    told.put(" children");
}

/// Tells of a row group how many rows it has.
pub fn tell_group(group: &RowGroup, told: &mut Transcript) {
    told.line("group of ");
    told.show("", &group.num_rows);
    told.put(" rows");
}

/// Tells a column chunk: its path, its codec, how many values it has, and where its first page begins.
pub fn tell_chunk(chunk: &ColumnChunk, told: &mut Transcript) {
    told.line("chunk");
    for name in &chunk.path_in_schema {
        told.put(" ");
        told.quoted(name);
    }
    told.show(", codec ", &chunk.codec);
    told.show(", ", &chunk.num_values);
    told.show(" values from ", &chunk.data_page_offset);
}
