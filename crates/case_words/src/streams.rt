//! Readers and writers that fail where a case wants it.

ghost use Rattle.std.specs.Prelude.{◌≤◌};

use std::io;
use std::io::{ErrorKind, Read, Write};

/// How a stream behaves.
#[derive(Clone, Copy)]
pub struct Manner {
    /// How many bytes a call moves at most.
    pub by: usize,
    /// How many bytes it moves until it fails.
    pub until: usize,
}

/// A stream that doesn't fail.
pub const SOUND: Manner = Manner {
    by: usize::MAX,
    until: usize::MAX,
};

/// The lesser number.
fn lesser(one: usize, other: usize) -> usize
    ensures one { result ≤ one }
    ensures other { result ≤ other }
{
    if one < other { one } else { other }
}

/// How many bytes a call moves.
fn count_of(manner: Manner, wanted: usize) -> usize
    ensures wanted { result ≤ wanted }
    ensures until { result ≤ manner.until }
{
    lesser(lesser(wanted, manner.by), manner.until)
}

/// A reader of a text.
#[derive(Drop)]
pub struct Source<'a> {
    pub rest: &'a [u8],
    pub manner: Manner,
}

impl Read for Source<'_> {
    fn read(&mut self, buf: &mut [u8]) -> io::Result<usize> {
        if self.manner.until == 0 {
            return Err(io::Error::from(ErrorKind::Other));
        }
        let count = count_of(self.manner, lesser(buf.len(), self.rest.len()));
        let (front, behind) = self.rest.split_at(count);
        buf[..count].copy_from_slice(front);
        self.rest = behind;
        self.manner.until -= count;
        Ok(count)
    }
}

/// A writer into memory.
#[derive(Drop)]
pub struct Sink<'a> {
    pub told: &'a mut Vec<u8>,
    pub manner: Manner,
    /// Whether a write that fails takes no byte in place of an error.
    pub is_full: bool,
    /// Whether a flush fails.
    pub is_stuck: bool,
}

impl Write for Sink<'_> {
    fn write(&mut self, buf: &[u8]) -> io::Result<usize> {
        if self.manner.until == 0 && !self.is_full {
            return Err(io::Error::from(ErrorKind::Other));
        }
        let count = count_of(self.manner, buf.len());
        self.told.extend_from_slice(&buf[..count])?;
        self.manner.until -= count;
        Ok(count)
    }

    fn flush(&mut self) -> io::Result<()> {
        if self.is_stuck {
            return Err(io::Error::from(ErrorKind::Other));
        }
        Ok(())
    }
}
