//! The header of a page, read.

ghost use Rattle.std.specs.Prelude.{◌≡◌, ◌≤◌, length, IfOk};
ghost use Rattle.lake_bytes.specs.Reading.{IsReading};
ghost use Rattle.thrift_core.specs.View.{view};
ghost use Rattle.parquet_pages.specs.Headers.{level_encoding_of, data_page_of, dictionary_page_of, content_of, header_of};
ghost use Rattle.parquet_pages.specs.Outcome.{FileGives};
ghost use Rattle.parquet_pages.specs.Reading.{header_at};
ghost use Rattle.parquet_pages.specs.Views.{content_view, header_view};
ghost use Rattle.parquet_footer.specs.declared.fault.FileFault.TheVariants.{BadPage};

use crate::enums::{DATA_PAGE, DICTIONARY_PAGE};
use crate::usual::usual_header;
use lake_bytes::Cursor;
use page_cells::bad_page;
use parquet_footer::{FileError, FileFault};
use std::alloc::Global;
use thrift_core::fields::{count, integer, structure};
use thrift_core::{ReadError, TValue, ThriftFault, read_struct};

/// What the header of a page says (Apache Parquet, PageHeader).
#[derive(Clone, Copy, Debug)]
pub struct PageHeader {
    /// The kind of page, by its number: 0 is a data page of version 1.
    pub page_type: i64,
    /// How many bytes it has when it isn't compressed, without its header.
    pub uncompressed_page_size: u64,
    /// How many bytes it has in the file, without its header.
    pub compressed_page_size: u64,
    /// What the header of its kind says.
    pub content: PageContent,
}

/// What the header of a page's kind says.
#[derive(Clone, Copy, Debug)]
pub enum PageContent {
    /// A data page (Apache Parquet, DataPageHeader).
    Data {
        /// How many values it has, nulls among them.
        num_values: u64,
        /// The encoding of its values, by its number: 0 is PLAIN.
        encoding: i64,
        /// The encoding of its definition levels, where the column has levels: 3 is RLE.
        level_encoding: Option<i64>,
    },
    /// A dictionary page (Apache Parquet, DictionaryPageHeader).
    Dictionary {
        /// How many values it has.
        num_values: u64,
        /// The encoding of its values, by its number.
        encoding: i64,
    },
    /// A page of another kind, of which nothing is read.
    Other,
}

/// The header of a page in front of the bytes, and the bytes behind it (Apache Parquet, PageHeader). The encoding of
/// levels is looked at where the column has levels.
///
/// P11 where it can't be read, lacks a field that is needed (TH4), or has a negative count (B3). The time is linear in
/// its bytes. The header of a data page with no field but the usual ones takes no memory.
pub fn read_header(
    alloc: Global,
    bytes: &[u8],
    has_levels: bool,
) -> Result<(PageHeader, &[u8]), FileError>
    ensures exact { FileGives (λ x. (header_view x.0, x.1.now)) result (header_at has_levels bytes.now) }
    ensures behind { IfOk result (λ x. length x.1.now ≤ length bytes.now) }
{
    let mut cursor = Cursor::new(bytes);
    if let Some(usual) = usual_header(&mut cursor) {
        return match usual.header(has_levels) {
            Ok(header) => Ok((header, cursor.left())),
            Err(fault) => Err(FileError::Fault(bad_header(fault))),
        };
    }
    read_any_header(alloc, bytes, has_levels)
}

/// The header of a page with any fields, which are read as a tree.
#[tactic(auto, unfolding(crate::specs::Reading::header_at))]
fn read_any_header(
    alloc: Global,
    bytes: &[u8],
    has_levels: bool,
) -> Result<(PageHeader, &[u8]), FileError>
    ensures exact { FileGives (λ x. (header_view x.0, x.1.now)) result (header_at has_levels bytes.now) }
    ensures behind { IfOk result (λ x. length x.1.now ≤ length bytes.now) }
{
    let mut cursor = Cursor::new(bytes);
    let tree = read_struct(alloc, &mut cursor).map_err(in_page)?;
    let header = header(&tree, has_levels).map_err(bad_header)?;
    Ok((header, cursor.left()))
}

/// A fault of a page's header.
fn in_page(error: ReadError) -> FileError
    ensures memory { error ≡ ReadError.Memory → result ≡ FileError.Memory }
    ensures fault { (fault : ThriftFault) → error ≡ ReadError.Fault fault → result ≡ FileError.Fault (BadPage fault) }
{
    match error {
        ReadError::Memory => FileError::Memory,
        ReadError::Fault(fault) => FileError::Fault(bad_header(fault)),
    }
}

/// A fault of what a page's header says, as a file's. It stands here since only a crate's own functions are values
/// that the prover follows (`map_err`).
fn bad_header(fault: ThriftFault) -> FileFault
    ensures { result ≡ BadPage fault }
{
    bad_page(fault)
}

#[tactic(auto, unfolding(crate::specs::Headers::header_of))]
fn header(tree: &TValue<Global>, has_levels: bool) -> Result<PageHeader, ThriftFault>
    ensures { IsReading header_view result (header_of has_levels (view tree.now)) }
{
    let page_type = integer(tree, 1)?;
    let uncompressed_page_size = count(tree, 2)?;
    let compressed_page_size = count(tree, 3)?;
    let content = content(tree, has_levels, page_type)?;
    Ok(PageHeader {
        page_type,
        uncompressed_page_size,
        compressed_page_size,
        content,
    })
}

/// The header of a page's kind.
#[tactic(auto, unfolding(crate::specs::Headers::content_of))]
fn content(
    tree: &TValue<Global>,
    has_levels: bool,
    page_type: i64,
) -> Result<PageContent, ThriftFault>
    ensures { IsReading content_view result (content_of has_levels page_type (view tree.now)) }
{
    match page_type {
        DATA_PAGE => data_page(structure(tree, 5)?, has_levels),
        DICTIONARY_PAGE => dictionary_page(structure(tree, 7)?),
        _ => Ok(PageContent::Other),
    }
}

#[tactic(auto, unfolding(crate::specs::Headers::data_page_of))]
fn data_page(tree: &TValue<Global>, has_levels: bool) -> Result<PageContent, ThriftFault>
    ensures { IsReading content_view result (data_page_of has_levels (view tree.now)) }
{
    let num_values = count(tree, 1)?;
    let encoding = integer(tree, 2)?;
    let level_encoding = level_encoding(tree, has_levels)?;
    Ok(PageContent::Data {
        num_values,
        encoding,
        level_encoding,
    })
}

fn level_encoding(tree: &TValue<Global>, has_levels: bool) -> Result<Option<i64>, ThriftFault>
    ensures { result ≡ level_encoding_of has_levels (view tree.now) }
{
    if has_levels {
        Ok(Some(integer(tree, 3)?))
    } else {
        Ok(None)
    }
}

#[tactic(auto, unfolding(crate::specs::Headers::dictionary_page_of))]
fn dictionary_page(tree: &TValue<Global>) -> Result<PageContent, ThriftFault>
    ensures { IsReading content_view result (dictionary_page_of (view tree.now)) }
{
    let num_values = count(tree, 1)?;
    let encoding = integer(tree, 2)?;
    Ok(PageContent::Dictionary {
        num_values,
        encoding,
    })
}
