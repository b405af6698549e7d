//! How bytes are spoiled, and what came of it.

ghost use Rattle.std.specs.Prelude.{◌<◌, length};

use crate::fault::LineFault;
use crate::transcript::Transcript;
use std::alloc::{AllocError, Global};
use std::collections::BTreeMap;

/// Bytes that are spoiled at a place, in one of four ways: cut there for 0; else without the byte there for 1, and with
/// 00 and FF in place of it for 2 and 3.
pub fn spoiled(alloc: Global, bytes: &[u8], place: usize, way: usize) -> Result<Vec<u8>, AllocError>
    requires { place < length bytes.now }
{
    let mut spoiled = Vec::from_slice(alloc, &bytes[..place])?;
    match way {
        0 => return Ok(spoiled),
        1 => {}
        2 => spoiled.push(0x00)?,
        _ => spoiled.push(0xFF)?,
    }
    spoiled.extend_from_slice(&bytes[place + 1..])?;
    Ok(spoiled)
}

/// How often each outcome came, for each of the four ways of spoiling.
pub struct Tallies {
    counts: BTreeMap<String, [u32; 4]>,
}

// One call where it is dropped: functions that hold it are shorter to prove.
impl Drop for Tallies {
    fn drop(self) {
        let Tallies { counts: _ } = self;
    }
}

impl Tallies {
    /// None yet.
    pub fn new(alloc: Global) -> Tallies {
        Tallies {
            counts: BTreeMap::new(alloc),
        }
    }

    /// Counts an outcome of this way of spoiling.
    pub fn count(&mut self, outcome: String, way: usize) -> Result<(), LineFault>
        requires { way < 4 }
    {
        let counts: &mut [u32; 4] = self.counts.entry(outcome)?.or_insert([0; 4]);
        counts[way] = counts[way].saturating_add(1);
        Ok(())
    }

    /// Tells them, a line for each outcome.
    pub fn tell(&self, told: &mut Transcript) {
        told.line("cut, without, 00, FF");
        for (outcome, counts) in self.counts.iter() {
            told.line("");
            for count in counts {
                told.show("", count);
                told.put(" ");
            }
            told.put(outcome);
        }
    }
}
