//! The hybrid of equal and of packed values, written as runs of equal ones.

ghost use Rattle.std.specs.Prelude.{◌≡◌, ◌==◌, ℕ, List, ◌<◌, ◌≤◌, ◌^◌, ◌++◌, All, length, OnOk, OnErr};
ghost use Rattle.std.specs.List.{prefix_len};
ghost use Rattle.lake_bytes.specs.Hybrid.{AreRuns, bytes_for, hybrid_bytes, low_bytes, run_bytes};

use crate::hybrid::bytes_for;
use crate::run::Run;
use crate::writing::write_varint;
use std::alloc::AllocError;

/// Writes values of `width` bits, 0 to 32, as runs of equal ones, as few as there can be (Apache Parquet, "Run Length
/// Encoding / Bit-Packing Hybrid"). Each value has to be below 2^`width`. Out of memory, the vector stays as it was.
///
/// The time is linear in the values.
pub fn hybrid_write(out: &mut Vec<u8>, width: u32, values: &[u64]) -> Result<(), AllocError>
    requires { width ≤ 32 }
    ensures ok { OnOk result (out.new.items ≡ out.old.items ++ hybrid_bytes width values.now) }
    // What is written is runs of these values, so that they are read again.
    ensures runs { All (λ value. value < 2 ^ width) values.now
        → AreRuns width (hybrid_bytes width values.now) values.now }
    ensures err { OnErr result (out.new.items ≡ out.old.items) }
{
    let start = out.len();
    let written = push_runs(out, width, values);
    if written.is_err() {
        out.truncate(start);
    }
    written
}

/// Writes run by run.
fn push_runs(out: &mut Vec<u8>, width: u32, values: &[u64]) -> Result<(), AllocError>
    requires { width ≤ 32 }
    ensures ok { OnOk result (out.new.items ≡ out.old.items ++ hybrid_bytes width values.now) }
    ensures keeps { OnErr result ((more : List ℕ) × (out.new.items ≡ out.old.items ++ more)) }
    ensures few { length values.now < 2 ^ 60 }
{
    let mut rest = values;
    while let Some((value, behind)) = rest.split_first() {
        let more = equal_in_front(behind, *value);
        let run = Run {
            value: *value,
            count: 1 + more as u64,
        };
        push_run(out, width, run)?;
        rest = behind.split_at(more).1;
    }
    Ok(())
}

/// How many values in front are this one.
fn equal_in_front(values: &[u64], value: u64) -> usize
    ensures count { result ≡ prefix_len (λ other. other == value) values.now }
    ensures within { result ≤ length values.now }
    ensures few { length values.now < 2 ^ 60 }
{
    values.iter().take_while(|other| **other == value).count()
}

/// Writes one run of equal values.
fn push_run(out: &mut Vec<u8>, width: u32, run: Run) -> Result<(), AllocError>
    requires width { width ≤ 32 }
    requires count { run.count < 2 ^ 63 }
    ensures ok { OnOk result (out.new.items ≡ out.old.items ++ run_bytes width run) }
    ensures keeps { OnErr result ((more : List ℕ) × (out.new.items ≡ out.old.items ++ more)) }
{
    write_varint(out, 2 * run.count)?;
    let mut left = run.value;
    for _index in 0..bytes_for(width) {
        out.push((left % 256) as u8)?;
        left /= 256;
    }
    Ok(())
}
