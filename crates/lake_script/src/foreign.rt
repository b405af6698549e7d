//! Commits that another tool puts.
ghost use Rattle.outcomes.specs.Lines.{with_newline};
ghost use Rattle.std.specs.Prelude.{◌≡◌, IfOk, OnOk, IsErrOf};
ghost use Rattle.store_core.specs.Calls.{put_told};
ghost use Rattle.store_core.specs.Objects.{object_at, with_object};
ghost use Rattle.store_core.specs.Names.{commit_name};
ghost use Rattle.lake_script.specs.AnyStore.{PutsForeign};

use std::alloc::{AllocError, Global};
use store_core::{Put, Store, StoreFault, commit_name};

/// The bytes of a line, with the newline that ends it.
fn line_bytes(alloc: Global, text: &str) -> Result<Vec<u8>, AllocError>
    ensures { IfOk result (λ bytes. bytes.items ≡ with_newline text.now) }
{
    let mut bytes = Vec::new(alloc);
    bytes.extend_from_slice(text.as_bytes())?;
    bytes.push(b'\n')?;
    Ok(bytes)
}

/// Puts a version's commit of this one line, unless an object of that name stands. The line may be
/// any text; a version above 999,999,999,999 has a name that is no commit's.
///
/// Time is linear in the line, but for the store's own.
pub fn put_line<S: Store>(
    alloc: Global,
    store: &mut S,
    version: u64,
    action: &str,
) -> Result<Put, StoreFault>
    // Over any store, one that loses calls too: what became of the put, and of the count of faults, by the answer.
    ensures put { PutsForeign version action.now result
        (S.objects store.old, S.in_flight store.old) (S.objects store.new, S.in_flight store.new) (S.fault_count store.old) (S.fault_count store.new) }
    ensures landed { OnOk result (S.objects store.new ≡ with_object (S.objects store.old) (commit_name version) (with_newline action.now)) }
    ensures told { S.is_reliable store.old → IfOk result (λ put. put ≡ put_told (object_at (S.objects store.old) (commit_name version))) }
    ensures never_lost { S.is_reliable store.old → IsErrOf result StoreFault.Lost → ⊥ }
    ensures reliable { S.is_reliable store.old → S.is_reliable store.new }
{
    let name = commit_name(alloc, version)?;
    let bytes = line_bytes(alloc, action)?;
    store.put_absent(&name, bytes)
}
