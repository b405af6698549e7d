//! A program that sends a store to another thread, which puts an object; what the store then lists is printed here. What
//! it prints is the same whatever the schedule.
#![tactic(auto)]

ghost use Rattle.std.specs.Prelude.{◌≡◌, IfOk, true, is_some};
ghost use Rattle.store_core.specs.Memory.{stored_objects};
ghost use Rattle.store_core.specs.Objects.{object_at};

use std::alloc::Global;
use std::process::ExitCode;
use std::thread::Threads;
use std::{io, thread};
use store_core::{MemoryStore, Names, Store, StoreFault};

/// The store with an object of no bytes under a name, where none stood there.
fn with_object(alloc: Global, store: MemoryStore, name: &str) -> Result<MemoryStore, StoreFault>
    ensures { IfOk result (λ later. is_some (object_at (stored_objects later) name.now) ≡ true) }
{
    let mut store = store;
    store.put_absent(name, Vec::new(alloc))?;
    Ok(store)
}

/// How many names a store listed, and those that it lists once another thread has put one more. Those that it listed
/// before are read here meanwhile: the store that is sent shares them.
fn listed_behind(rt: &impl Threads, alloc: Global) -> Result<(usize, Names), StoreFault> {
    let mut store = with_object(alloc, MemoryStore::new(alloc), "here")?;
    let before = store.list()?;
    let (sent, count) = thread::join(
        rt,
        move || with_object(alloc, store, "there"),
        || before.as_slice().len(),
    );
    Ok((count, sent?.list()?))
}

fn main(rt: HostRuntime) -> io::Result<ExitCode> {
    match listed_behind(&rt, rt.alloc()) {
        Ok((count, names)) => {
            println!(rt; "{count} before")?;
            for name in names.as_slice() {
                println!(rt; "{name}")?;
            }
            Ok(ExitCode::SUCCESS)
        }
        Err(fault) => {
            eprintln!(rt; "{fault}")?;
            Ok(ExitCode::FAILURE)
        }
    }
}
