//! One data page: what it holds of its column.

ghost use Rattle.std.specs.Prelude.{◌≡◌, ◌≤◌, ◌++◌, length, replicate, Ok, IfOk, OnOk};
ghost use Rattle.lake_bytes.specs.Reading.{IsReading};
ghost use Rattle.shred.specs.Columns as columns;
ghost use Rattle.lake_bytes.specs.Hybrid.{values_of};
ghost use Rattle.std.specs.List.{list_all, list_any};
ghost use Rattle.parquet_pages.specs.Internal.{HasCells};
ghost use Rattle.parquet_pages.specs.Outcome.{GivesWhere};
ghost use Rattle.parquet_pages.specs.Pages.{IsPage, Suits};
ghost use Rattle.parquet_pages.specs.Reading.{DataPage, data_page_in, num_values_in, encoding_fault, unless_fault, body_at, column_in, page_at, tested};
ghost use Rattle.page_cells.specs.Texts.{is_too_long};
ghost use Rattle.page_cells.specs.Levels.{may_stand};
ghost use Rattle.parquet_pages.specs.Views.{header_view, leaf_view, IsCells, IsPageOf};

use crate::enums::{PLAIN, RLE};
use crate::header::{PageContent, PageHeader, read_header};
use crate::leaf::Leaf;
use lake_bytes::{Cursor, HybridReader, Run};
use page_cells::{are_in_range, are_proper, bad_bytes, pass_values, test_levels};
use parquet_footer::{FileError, FileFault};
use std::alloc::{AllocError, Global};

/// What a data page holds of its column: a reader of its levels and the bytes of its values, which lie in the file's.
#[derive(Drop)]
pub struct Page<'a> {
    levels: HybridReader<'a>,
    values: &'a [u8],
    num_values: u64,
    present: u64,
    next: usize,
}

impl<'a> Page<'a> {
    /// How many values it has, nulls among them.
    pub fn num_values(&self) -> u64
        ensures { result ≡ self.now.num_values }
    {
        self.num_values
    }

    /// The bytes of its values.
    pub(crate) fn values(&self) -> &'a [u8]
        ensures { result.now ≡ self.now.values.now }
    {
        self.values
    }

    /// Its levels, without the rest.
    pub fn into_levels(self) -> HybridReader<'a>
        ensures { result ≡ self.entry.levels }
    {
        self.levels
    }

    /// The place behind the page.
    pub fn next(&self) -> usize
        ensures { result ≡ self.now.next }
    {
        self.next
    }
}

/// The data page of a leaf's column that begins at a place; `bytes` are the file's before its footer, and `left` values
/// are missing of the column (Apache Parquet, "Data Pages").
///
/// P6 where the place isn't before the end; P11 for the header as [`read_header`] has it; P5 for a page of another
/// kind; P6 where it doesn't end in the bytes; P7 where its two sizes differ; P4 where its values aren't in PLAIN, and
/// then where its levels aren't in RLE; P11 for its levels, which may not be above the highest (B3), and values; P9 for
/// a text or bytes of over 1 MiB; P7 for bytes behind its values or more values than are left; P10 for a text that
/// isn't UTF-8; P8 for a null where the table has none and a number out of its type's range.
///
/// The time is linear in its bytes, however many values its levels claim: equal levels are looked at once for each run,
/// and packed ones one by one. Of its levels and values nothing is kept but where they stand, and memory is taken for
/// the header alone.
pub fn read_page<'a>(
    alloc: Global,
    leaf: &Leaf,
    bytes: &'a [u8],
    place: usize,
    left: u64,
) -> Result<Page<'a>, FileError>
    // The page stands there, and what it holds suits the leaf.
    ensures found { IfOk result (λ page. (c : columns.Column) × IsCells (leaf_view leaf.now) page c × IsPage
        (leaf_view leaf.now) bytes.now place c page.next × Suits (leaf_view leaf.now) c) }
    // Which page it is, or which fault: the first one in the order of the tests.
    ensures exact { GivesWhere (IsPageOf (leaf_view leaf.now)) result
        (page_at (leaf_view leaf.now) bytes.now place left) }
{
    page_from(alloc, leaf, bytes, place, left)
}

/// The page, in the order of the tests.
#[tactic(auto, unfolding(crate::specs::Reading::page_at))]
fn page_from<'a>(
    alloc: Global,
    leaf: &Leaf,
    bytes: &'a [u8],
    place: usize,
    left: u64,
) -> Result<Page<'a>, FileError>
    ensures exact { GivesWhere (IsPageOf (leaf_view leaf.now)) result
        (page_at (leaf_view leaf.now) bytes.now place left) }
{
    if place >= bytes.len() {
        return Err(FileFault::BadOffset.into());
    }
    let (_, page) = bytes.split_at(place);
    let (header, behind) = read_header(alloc, page, leaf.highest() > 0)?;
    let (count, body) = body_of(&header, behind)?;
    let next = bytes.len() - behind.len() + body.len();
    page_in(leaf, left, count, body, next)
}

/// How many values a page with this header has, and its body, in front of the bytes.
#[tactic(auto, unfolding(crate::specs::Reading::body_at))]
fn body_of<'a>(header: &PageHeader, behind: &'a [u8]) -> Result<(u64, &'a [u8]), FileFault>
    ensures told { IsReading (λ x. (x.0, x.1.now)) result (body_at (header_view header.now) behind.now) }
    ensures inside { IfOk result (λ x. length x.1.now ≤ length behind.now) }
{
    let count = values_of_page(header)?;
    if header.compressed_page_size > behind.len() as u64 {
        return Err(FileFault::BadOffset);
    }
    if header.uncompressed_page_size != header.compressed_page_size {
        return Err(FileFault::CountMismatch);
    }
    test_encodings(header)?;
    let (body, _) = behind.split_at(header.compressed_page_size as usize);
    Ok((count, body))
}

/// How many values a data page has.
fn values_of_page(header: &PageHeader) -> Result<u64, FileFault>
    ensures { IsReading (λ count. count) result (num_values_in (header_view header.now)) }
{
    match header.content {
        PageContent::Data { num_values, .. } => Ok(num_values),
        _ => Err(FileFault::PageKind {
            n: header.page_type,
        }),
    }
}

/// Tests the encoding of the values, and then that of the levels.
fn test_encodings(header: &PageHeader) -> Result<(), FileFault>
    ensures { (page : DataPage) → data_page_in (header_view header.now) ≡ Ok page
        → IsReading (λ x. page) result (unless_fault (encoding_fault page.encoding page.level_encoding) page) }
{
    let PageContent::Data {
        num_values: _,
        encoding,
        level_encoding,
    } = header.content
    else {
        return Ok(());
    };
    if encoding != PLAIN {
        return Err(FileFault::Encoding { n: encoding });
    }
    match level_encoding {
        Some(encoding) if encoding != RLE => Err(FileFault::Encoding { n: encoding }),
        _ => Ok(()),
    }
}

/// The page of this body.
fn page_in<'a>(
    leaf: &Leaf,
    left: u64,
    count: u64,
    body: &'a [u8],
    next: usize,
) -> Result<Page<'a>, FileError>
    ensures cells { GivesWhere (IsCells (leaf_view leaf.now)) result
        (column_in (leaf_view leaf.now) left count body.now) }
    ensures next { IfOk result (λ page. page.next ≡ next) }
{
    let mut cursor = Cursor::new(body);
    let (levels, told) = match test_levels(&mut cursor, leaf.nullable, count) {
        Ok(tested) => tested,
        Err(fault) => return Err(bad_bytes(fault)),
    };
    let values = cursor.left();
    let has_long = match pass_values(&mut cursor, leaf.leaf_type, told.present) {
        Ok(has_long) => has_long,
        Err(fault) => return Err(bad_bytes(fault)),
    };
    let page = Page {
        levels,
        values,
        num_values: count,
        present: told.present,
        next,
    };
    let nulls = told.nulls_may_stand;
    test_cells(leaf, &page, nulls, left, has_long, cursor.left())?;
    Ok(page)
}

/// Tests what a page holds, behind which these bytes are left of its body; `nulls_may_stand` says whether its nulls
/// stand only where the table has them, and `has_long` whether it has a text or bytes of over 1 MiB.
fn test_cells(
    leaf: &Leaf,
    page: &Page,
    nulls_may_stand: bool,
    left: u64,
    has_long: bool,
    behind: &[u8],
) -> Result<(), FileFault>
    ensures { (c : columns.Column) → HasCells (leaf_view leaf.now) page.now c behind.now
        → nulls_may_stand ≡ list_all (may_stand (leaf_view leaf.now).nullable) c.levels
        → has_long ≡ list_any is_too_long c.values
        → IsReading (λ x. c) result (tested (leaf_view leaf.now) left c behind.now) }
{
    if has_long {
        return Err(FileFault::TooLarge);
    }
    if !behind.is_empty() || page.num_values > left {
        return Err(FileFault::CountMismatch);
    }
    if !are_proper(leaf.leaf_type, page.present, page.values) {
        return Err(FileFault::NotUtf8);
    }
    if !nulls_may_stand || !are_in_range(leaf.leaf_type, page.present, page.values) {
        return Err(FileFault::SchemaMismatch);
    }
    Ok(())
}

/// Adds the levels of runs.
pub(crate) fn add_levels(runs: &[Run], levels: &mut Vec<u64>) -> Result<(), AllocError>
    ensures { OnOk result (levels.new.items ≡ levels.old.items ++ values_of runs.now) }
{
    for run in runs {
        add_level(*run, levels)?;
    }
    Ok(())
}

/// Adds the levels of a run.
fn add_level(run: Run, levels: &mut Vec<u64>) -> Result<(), AllocError>
    ensures { OnOk result (levels.new.items ≡ levels.old.items ++ replicate run.count run.value) }
{
    for _level in 0..run.count {
        levels.push(run.value)?;
    }
    Ok(())
}
