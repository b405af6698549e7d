//! The parts of the actors that lines have named.
ghost use Rattle.std.specs.Prelude.{◌≡◌, ℕ, List, OnOk, Some, IfErr};
ghost use Rattle.std.specs.BTreeMap.{get_by_text};

use std::alloc::{AllocError, Global};
use std::collections::BTreeMap;

/// The part of an actor that a line has named.
#[derive(Clone, Copy)]
pub struct Part {
    /// Its number in the world.
    pub number: u64,
    /// Its last read was refused for the text of its offset, and it wasn't told so yet.
    pub is_refused: bool,
}

/// By name, the parts of the actors that were named.
pub type Parts = BTreeMap<String, Part>;

/// Sets an actor's part. Fails where memory runs out, and changes nothing then.
pub(crate) fn set_part(
    alloc: Global,
    parts: &mut Parts,
    name: &str,
    part: Part,
) -> Result<(), AllocError>
    ensures set { OnOk result (get_by_text parts.new name.now ≡ Some part) }
    ensures others { OnOk result ((other : List ℕ) → (other ≡ name.now → ⊥) → get_by_text parts.new other ≡ get_by_text parts.old other) }
    ensures same { IfErr result (λ _. (other : List ℕ) → get_by_text parts.new other ≡ get_by_text parts.old other) }
{
    if let Some(place) = parts.get_mut(name) {
        *place = part;
        return Ok(());
    }
    let owned = String::from_str(alloc, name)?;
    parts.insert(owned, part)?;
    Ok(())
}

/// The part of an actor.
pub(crate) fn part_of(parts: &Parts, name: &str) -> Option<Part>
    ensures { result ≡ get_by_text parts.now name.now }
{
    parts.get(name).copied()
}

/// Sets whether an actor's last read was refused and it wasn't told so yet.
pub(crate) fn set_refused(parts: &mut Parts, name: &str, part: Part, is_refused: bool)
    requires { get_by_text parts.old name.now ≡ Some part }
    ensures set { get_by_text parts.new name.now ≡ Some (record part { is_refused = is_refused }) }
    ensures others { (other : List ℕ) → (other ≡ name.now → ⊥) → get_by_text parts.new other ≡ get_by_text parts.old other }
{
    if let Some(place) = parts.get_mut(name) {
        *place = Part {
            number: part.number,
            is_refused,
        };
    }
}
