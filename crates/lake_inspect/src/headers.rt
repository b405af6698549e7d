//! The headers of Parquet pages as text.

use crate::tree::tell_value;
use byte_words::{LineFault, Transcript, tell_left};
use lake_bytes::Cursor;
use parquet_pages::{PageContent, PageHeader};
use std::alloc::Global;
use thrift_core::{TValue, ThriftFault, read_struct};

/// The fields that each page's header needs (Apache Parquet, PageHeader).
const PAGE_FIELDS: [(i16, &str); 3] = [(1, "type "), (2, ", uncompressed "), (3, ", compressed ")];

/// The fields that are there for a type of page.
const PAGE_KINDS: [(i16, &str); 2] = [(5, ", data page: "), (7, ", dictionary page: ")];

/// The fields that a data page's header and a dictionary page's need.
const CONTENT_FIELDS: [(i16, &str); 2] = [(1, "values "), (2, ", encoding ")];

/// Tells what the struct in front of the bytes says as a page's header, and how many bytes are left.
pub fn tell_page_struct(bytes: &[u8], told: &mut Transcript) -> Result<(), LineFault> {
    let mut cursor = Cursor::new(bytes);
    let tree = told.given(read_struct(told.alloc(), &mut cursor))?;
    let mut header = Transcript::new(told.alloc(), "");
    told.given(tell_header_struct(&tree, &mut header))?;
    told.put(header.text());
    tell_left(&cursor, told);
    Ok(())
}

/// Tells what a struct says as a page's header: each of the fields, whatever it holds.
fn tell_header_struct(tree: &TValue<Global>, told: &mut Transcript) -> Result<(), ThriftFault> {
    for (id, name) in PAGE_FIELDS {
        told.put(name);
        tell_value(tree.required(id)?, told);
    }
    for (kind, title) in PAGE_KINDS {
        if let Some(content) = tree.field(kind) {
            told.put(title);
            for (id, name) in CONTENT_FIELDS {
                told.put(name);
                tell_value(content.required(id)?, told);
            }
        }
    }
    Ok(())
}

/// Tells what the header of the page at a place says, in the same words; of a column with levels also their encoding.
pub fn tell_header(place: usize, header: &PageHeader, told: &mut Transcript) {
    told.line("page at ");
    told.show("", &place);
    told.show(": type ", &header.page_type);
    told.show(", uncompressed ", &header.uncompressed_page_size);
    told.show(", compressed ", &header.compressed_page_size);
    match header.content {
        PageContent::Data {
            num_values,
            encoding,
            level_encoding,
        } => {
            told.show(", data page: values ", &num_values);
            told.show(", encoding ", &encoding);
            if let Some(number) = level_encoding {
                told.show(", level encoding ", &number);
            }
        }
        PageContent::Dictionary {
            num_values,
            encoding,
        } => {
            told.show(", dictionary page: values ", &num_values);
            told.show(", encoding ", &encoding);
        }
        PageContent::Other => {}
    }
}
