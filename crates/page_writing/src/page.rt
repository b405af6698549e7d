//! A page of a column, written.

ghost use Rattle.std.specs.Prelude.{◌≡◌, ◌≤◌, length, OnErr};
ghost use Rattle.shred.specs.Views.{borrowed_column};
ghost use Rattle.page_writing.specs.Internal.{part, BeginsWith};
ghost use Rattle.page_writing.specs.Outcome.{Writes};
ghost use Rattle.page_writing.specs.Writing.{page_written};

use crate::header::header_bytes;
use crate::levels::level_bytes;
use crate::plain::{plain_size, write_plain};
use parquet_footer::{FileError, FileFault};
use parquet_pages::{LeafType, MAX_PAGE_SIZE};
use row_core::Value;
use shred::Column;
use std::alloc::{AllocError, Global};

/// The most rows of a page that is written.
pub const MAX_PAGE_ROWS: usize = 4_096;

/// Writes a data page of a column of at most [`MAX_PAGE_ROWS`] rows: its header, its levels as runs of equal ones, as
/// few as there can be, and its values in PLAIN (Apache Parquet, "Data Pages"). The highest level is the number of
/// nodes on the way to the leaf that may be null, at most 16. Of a value that the leaf's physical type can't hold
/// nothing is written; where that is BOOLEAN, a bit 0 is.
///
/// P9 for a page whose body is over 64 MiB. Behind a refusal, and out of memory, `out` holds what it held. The time is
/// linear in the levels and the bytes that are written.
pub fn write_page(
    alloc: Global,
    out: &mut Vec<u8>,
    leaf_type: LeafType,
    highest: u64,
    column: &Column<&Value>,
) -> Result<(), FileError>
    requires { length column.now.levels.items ≤ 4096 }
    // Which bytes are written behind what was there, and when there are none.
    ensures exact { Writes (page_written leaf_type highest (borrowed_column column.now)) out.old.items result out.new.items }
    // Where none are, what was there is left.
    ensures err { OnErr result (out.new.items ≡ out.old.items) }
{
    let start = out.len();
    match put_page(
        alloc,
        out,
        leaf_type,
        highest,
        &column.levels,
        &column.values,
    ) {
        Ok(()) => Ok(()),
        Err(error) => {
            out.truncate(start);
            Err(error)
        }
    }
}

/// Writes a page of these levels and values.
#[tactic(auto, using(crate::proofs::Kept::keeps_page), unfolding(crate::specs::Writing::page_written))]
fn put_page(
    alloc: Global,
    out: &mut Vec<u8>,
    leaf_type: LeafType,
    highest: u64,
    levels: &[u64],
    values: &[&Value],
) -> Result<(), FileError>
    requires { length levels.now ≤ 4096 }
    ensures exact { Writes (page_written leaf_type highest (part levels.now values.now)) out.old.items result out.new.items }
    ensures keeps { OnErr result (BeginsWith out.old.items out.new.items) }
{
    let level_bytes = level_bytes(alloc, highest, levels)?;
    let physical_type = leaf_type.physical_type();
    let size = (level_bytes.len() as u64).saturating_add(plain_size(
        physical_type,
        values,
        MAX_PAGE_SIZE,
    ));
    if size > MAX_PAGE_SIZE {
        return Err(FileFault::TooLarge.into());
    }
    let header = header_bytes(alloc, levels.len() as u32, size as u32)?;
    out.extend_from_slice(&header)?;
    out.extend_from_slice(&level_bytes)?;
    write_plain(out, physical_type, values)?;
    Ok(())
}
