//! The definition levels of a page, written.

ghost use Rattle.std.specs.Prelude.{◌≡◌, ◌≤◌, ◌<◌, ◌^◌, length, IfOk};
ghost use Rattle.page_writing.specs.Writing.{level_bytes};

use crate::plain::write_content;
use lake_bytes::hybrid_write;
use page_cells::width_of;
use std::alloc::{AllocError, Global};

/// The bytes of levels of a page: behind their length runs of equal ones, as few as there can be; none where the
/// highest level is 0.
#[tactic(auto, unfolding(crate::specs::Writing::level_bytes))]
pub(crate) fn level_bytes(
    alloc: Global,
    highest: u64,
    levels: &[u64],
) -> Result<Vec<u8>, AllocError>
    requires { length levels.now ≤ 4096 }
    ensures bytes { IfOk result (λ bytes. bytes.items ≡ level_bytes highest levels.now) }
    // A bound that is easily seen, by which sizes fit.
    ensures short { IfOk result (λ bytes. length bytes.items ≤ 65540) }
{
    let mut bytes = Vec::new(alloc);
    if highest == 0 {
        return Ok(bytes);
    }
    let mut hybrid = Vec::new(alloc);
    hybrid_write(&mut hybrid, width_of(highest), levels)?;
    write_content(&mut bytes, &hybrid)?;
    Ok(bytes)
}
