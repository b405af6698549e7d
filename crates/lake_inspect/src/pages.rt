//! The pages of a table's Parquet file as text.

use crate::footer::{tell_chunk, tell_group};
use crate::headers::tell_header;
use byte_words::{LineFault, Transcript};
use lake_bytes::Run;
use parquet_file::chunk_named;
use parquet_footer::{FileFault, Footer, RowGroup, split_file};
use parquet_pages::{Leaf, Page, first_place, read_header, read_page};
use parquet_schema::{FileLeaf, fit};
use schema_tree::Schema;
use std::alloc::Global;

/// CompressionCodec UNCOMPRESSED.
const UNCOMPRESSED: i64 = 0;

/// Tells how many rows a file has, and for each row group and each leaf of the table, in the table's order, the chunk
/// and its pages: of each page its place and what its header says, and then its definition levels as runs,
/// `LEVEL*COUNT`, and how many values aren't null (Apache Parquet, "Column Chunks", "Data Pages", "Nested Encoding").
///
/// The first fault ends it: those of [`Footer::read`] and of [`fit`]; for a group without a chunk of a leaf P8, for a
/// chunk's codec P3, for a first page before byte 4 P6; and those of [`read_page`].
pub fn tell_pages(
    schema: &Schema<Global>,
    bytes: &[u8],
    told: &mut Transcript,
) -> Result<(), LineFault> {
    let (front, footer) = match split_file(bytes) {
        Ok(parts) => parts,
        Err(fault) => return Err(told.refused(&fault)),
    };
    let footer = told.given(Footer::of_bytes(told.alloc(), footer))?;
    let file = told.given(fit(told.alloc(), schema, &footer.schema))?;
    told.show("", &footer.num_rows);
    told.put(" rows");
    for group in &footer.row_groups {
        tell_group(group, told);
        for leaf in &file.leaves {
            tell_pages_of(group, leaf, front, told)?;
        }
    }
    Ok(())
}

/// Tells the chunk of a leaf and its pages; the bytes are the file's before its footer.
fn tell_pages_of(
    group: &RowGroup,
    leaf: &FileLeaf,
    bytes: &[u8],
    told: &mut Transcript,
) -> Result<(), LineFault> {
    let Some(chunk) = chunk_named(&group.columns, &leaf.names) else {
        return Err(told.refused(&FileFault::SchemaMismatch));
    };
    tell_chunk(chunk, told);
    if chunk.codec != UNCOMPRESSED {
        return Err(told.refused(&FileFault::Codec { n: chunk.codec }));
    }
    if chunk.num_values == 0 {
        return Ok(());
    }
    let place = told.given(first_place(chunk.data_page_offset))?;
    let leaf = Leaf {
        leaf_type: leaf.leaf_type,
        nullable: &leaf.nullable,
    };
    tell_pages_from(&leaf, bytes, place, chunk.num_values, told)
}

/// Tells the pages from a place on, up to so many values.
fn tell_pages_from(
    leaf: &Leaf,
    bytes: &[u8],
    place: usize,
    count: u64,
    told: &mut Transcript,
) -> Result<(), LineFault> {
    let mut place = place;
    let mut left = count;
    // Each page takes a byte at least.
    for _page in 0..bytes.len() {
        if left == 0 {
            break;
        }
        tell_header_at(leaf, bytes, place, told);
        let page = told.given(read_page(told.alloc(), leaf, bytes, place, left))?;
        left = left.saturating_sub(page.num_values());
        place = page.next();
        tell_levels(leaf.highest(), page, told);
    }
    Ok(())
}

/// Tells what the header of the page at a place says, if it can be read.
fn tell_header_at(leaf: &Leaf, bytes: &[u8], place: usize, told: &mut Transcript) {
    if place <= bytes.len() {
        let (_, page) = bytes.split_at(place);
        if let Ok((header, _)) = read_header(told.alloc(), page, leaf.highest() > 0) {
            tell_header(place, &header, told);
        }
    }
}

/// Tells the levels of a page, as runs that are as long as can be, and how many of its values aren't null.
fn tell_levels(highest: u64, page: Page, told: &mut Transcript) {
    told.line(if page.num_values() == 0 {
        "no levels"
    } else {
        "levels"
    });
    let mut levels = page.into_levels();
    let mut last = Run { value: 0, count: 0 };
    let mut present = 0u64;
    while let Some(run) = levels.next(u64::MAX) {
        if run.value != last.value {
            tell_run(last, told);
            last = Run {
                value: run.value,
                count: 0,
            };
        }
        last.count = last.count.saturating_add(run.count);
        if run.value == highest {
            present = present.saturating_add(run.count);
        }
    }
    tell_run(last, told);
    told.show(", ", &present);
    told.put(" not null");
}

/// Tells a run, unless it is empty.
fn tell_run(run: Run, told: &mut Transcript) {
    if run.count > 0 {
        told.show(" ", &run.value);
        told.show("*", &run.count);
    }
}
