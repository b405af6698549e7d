//! The header of a data page that has the usual fields alone, read without a tree.

ghost use Rattle.std.specs.Prelude.{◌≡◌, ◌∷◌, pos, true, IfSome};
ghost use Rattle.lake_bytes.specs.Reading.{IsReading, ReadsFront};
ghost use Rattle.parquet_pages.specs.Headers.{header_of};
ghost use Rattle.parquet_pages.specs.Usual.{usual_tree, SpellsNext, SpellsUsual};
ghost use Rattle.parquet_pages.specs.Views.{header_view};

use crate::enums::DATA_PAGE;
use crate::header::{PageContent, PageHeader};
use lake_bytes::Cursor;
use thrift_core::ThriftFault;
use thrift_core::fields::natural;

/// The first byte of a field that is a number of 32 bits and whose id is one above the last one.
const NEXT_NUMBER: u8 = 0x15;

/// The first byte of a field that is a struct and whose id is two above the last one.
const STRUCT_AFTER_NEXT: u8 = 0x2c;

/// The numbers in the header of a data page: its own three, and four of its kind.
#[derive(Clone, Copy)]
pub(crate) struct UsualHeader {
    page_type: i64,
    uncompressed: i64,
    compressed: i64,
    num_values: i64,
    encoding: i64,
    level_encoding: i64,
    repetition: i64,
}

impl UsualHeader {
    /// What the header says.
    #[tactic(auto, unfolding(crate::specs::Headers::header_of, crate::specs::Headers::content_of, crate::specs::Headers::data_page_of))]
    pub(crate) fn header(&self, has_levels: bool) -> Result<PageHeader, ThriftFault>
        ensures { self.now.page_type ≡ pos 0 → IsReading header_view result (header_of has_levels (usual_tree self.now)) }
    {
        let uncompressed_page_size = natural(self.uncompressed)?;
        let compressed_page_size = natural(self.compressed)?;
        let num_values = natural(self.num_values)?;
        let level_encoding = if has_levels {
            Some(self.level_encoding)
        } else {
            None
        };
        Ok(PageHeader {
            page_type: DATA_PAGE,
            uncompressed_page_size,
            compressed_page_size,
            content: PageContent::Data {
                num_values,
                encoding: self.encoding,
                level_encoding,
            },
        })
    }
}

/// The usual header of a data page in front, where one stands there. Else nothing is said of what is left.
pub(crate) fn usual_header(cursor: &mut Cursor<'_>) -> Option<UsualHeader>
    ensures spelled { IfSome result (λ usual. ReadsFront SpellsUsual cursor.old usual cursor.new) }
    ensures of_data { IfSome result (λ usual. usual.page_type ≡ pos 0) }
{
    let page_type = next_number(cursor)?;
    let uncompressed = next_number(cursor)?;
    let compressed = next_number(cursor)?;
    if page_type != DATA_PAGE || !is_next(cursor, STRUCT_AFTER_NEXT) {
        return None;
    }
    let num_values = next_number(cursor)?;
    let encoding = next_number(cursor)?;
    let level_encoding = next_number(cursor)?;
    let repetition = next_number(cursor)?;
    if !is_next(cursor, 0) || !is_next(cursor, 0) {
        return None;
    }
    Some(UsualHeader {
        page_type,
        uncompressed,
        compressed,
        num_values,
        encoding,
        level_encoding,
        repetition,
    })
}

/// Passes the next byte: whether it is this one.
fn is_next(cursor: &mut Cursor<'_>, byte: u8) -> bool
    ensures { result ≡ true → cursor.old ≡ byte ∷ cursor.new }
{
    match cursor.byte() {
        Ok(found) => found == byte,
        Err(_short) => false,
    }
}

/// The number in the next field.
fn next_number(cursor: &mut Cursor<'_>) -> Option<i64>
    ensures { IfSome result (λ number. ReadsFront SpellsNext cursor.old number cursor.new) }
{
    if !is_next(cursor, NEXT_NUMBER) {
        return None;
    }
    match cursor.zigzag_i32() {
        Ok(number) => Some(i64::from(number)),
        Err(_fault) => None,
    }
}
