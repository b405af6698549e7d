//! What is visible of a store where its log is looked at in front of a version: not the commits and checkpoints from
//! there on.
ghost use Rattle.std.specs.Prelude.{◌≡◌, IfOk, filter, map, string_bytes};
ghost use Rattle.front_reads.specs.Fronts.{is_in_front, is_kept, is_visible};

use std::alloc::{AllocError, Global};
use store_core::commit_version;
use table_log::version_below;

/// Of a version in front of another, or of none.
fn is_in_front(version: Option<u64>, front: u64) -> bool
    ensures { result ≡ is_in_front front version }
{
    match version {
        Some(version) => version < front,
        None => true,
    }
}

/// Whether a name isn't that of a commit or a checkpoint of a version or a later one.
fn is_kept(alloc: Global, front: u64, name: &str) -> Result<bool, AllocError>
    ensures { IfOk result (λ kept. kept ≡ is_kept front name.now) }
{
    if !is_in_front(commit_version(name), front) {
        return Ok(false);
    }
    let checkpoint = version_below(alloc, u64::MAX, name)?;
    Ok(is_in_front(checkpoint, front))
}

/// Whether a name is visible in front of a version, or in the whole store where none is given. Fails where memory runs
/// out.
pub fn is_visible(alloc: Global, front: Option<u64>, name: &str) -> Result<bool, AllocError>
    ensures { IfOk result (λ visible. visible ≡ is_visible front name.now) }
{
    match front {
        Some(front) => is_kept(alloc, front, name),
        None => Ok(true),
    }
}

/// Those of these names that are visible in front of a version, in their order. Fails where memory runs out. Time is
/// linear in the names.
pub fn visible_names(alloc: Global, front: u64, names: &[String]) -> Result<Vec<String>, AllocError>
    ensures { IfOk result (λ visible. map string_bytes visible.items ≡ filter (is_kept front) (map string_bytes names.now)) }
{
    let mut visible = Vec::new(alloc);
    for name in names {
        if is_kept(alloc, front, name.as_str())? {
            visible.push(name.clone()?)?;
        }
    }
    Ok(visible)
}
