//! What bytes are for a table of a schema.

use crate::columns::{tell_assembled, tell_columns};
use crate::pages::tell_pages;
use crate::rows::{tell_file, tell_row};
use crate::schema::schema_and_bytes;
use byte_words::{LineFault, TableKind, Transcript, Words};
use parquet_footer::Footer;
use parquet_schema::{FileLeaf, fit};
use schema_tree::Schema;
use std::alloc::Global;

/// Tells what bytes are for a table, for `SCHEMA BYTES`.
pub fn tell_table(
    kind: TableKind,
    words: &mut Words<'_>,
    told: &mut Transcript,
) -> Result<(), LineFault> {
    let (schema, bytes) = schema_and_bytes(words, told)?;
    match kind {
        TableKind::Rows => tell_file(told.alloc(), &schema, &bytes, told),
        TableKind::Pages => tell_pages(&schema, &bytes, told),
        TableKind::Fit => tell_fit(&schema, &bytes, told),
        TableKind::Row => tell_row(&schema, &bytes, told),
        TableKind::Columns => tell_columns(&schema, &bytes, told),
        TableKind::Assembled => tell_assembled(&schema, &bytes, told),
    }
}

/// Tells what a table's rows are in a file: for each leaf the way to it, and for each node on it that may be null in
/// the file whether the table lets it be null.
fn tell_fit(schema: &Schema<Global>, bytes: &[u8], told: &mut Transcript) -> Result<(), LineFault> {
    let footer = told.given(Footer::read(told.alloc(), bytes))?;
    let file = told.given(fit(told.alloc(), schema, &footer.schema))?;
    for leaf in &file.leaves {
        tell_fitted(leaf, told);
    }
    Ok(())
}

fn tell_fitted(leaf: &FileLeaf, told: &mut Transcript) {
    told.line("");
    let mut gap = "";
    for name in &leaf.names {
        told.put(gap);
        told.put(name);
        gap = ".";
    }
    told.show(", type ", &leaf.leaf_type.physical_type().number());
    told.debug(", nullable ", &leaf.nullable);
}
