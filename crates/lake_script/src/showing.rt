//! Objects of a store in hexadecimal.
ghost use Rattle.std.specs.Prelude.{◌≡◌, IfOk, IsErrOf, option_map, string_bytes};
ghost use Rattle.hex.specs.Hex.{encode_lower};
ghost use Rattle.store_core.specs.Calls.{CountsFault};
ghost use Rattle.store_core.specs.Objects.{object_at};

use std::alloc::Global;
use store_core::{Store, StoreFault};

/// An object's bytes in lower case hexadecimal, or `None` where it doesn't stand. The store is left
/// as it was.
pub fn hex_of<S: Store>(
    alloc: Global,
    store: &mut S,
    name: &str,
) -> Result<Option<String>, StoreFault>
    ensures object { IfOk result (λ found. option_map string_bytes found
        ≡ option_map encode_lower (object_at (S.objects store.old) name.now)) }
    ensures untouched { S.objects store.new ≡ S.objects store.old }
    ensures in_flight { S.in_flight store.new ≡ S.in_flight store.old }
    ensures faults { CountsFault result (S.fault_count store.old) (S.fault_count store.new) }
    ensures never_lost { S.is_reliable store.old → IsErrOf result StoreFault.Lost → ⊥ }
    ensures reliable { S.is_reliable store.old → S.is_reliable store.new }
{
    match store.get(name)? {
        Some(bytes) => Ok(Some(hex::encode(alloc, bytes)?)),
        None => Ok(None),
    }
}
