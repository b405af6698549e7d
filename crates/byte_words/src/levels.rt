//! Numbers and levels as bytes: those that a line spells, and what bytes hold.

ghost use Rattle.std.specs.Prelude.{◌≤◌};

use crate::fault::LineFault;
use crate::question::Kind;
use crate::transcript::Transcript;
use crate::words::Words;
use lake_bytes::{
    ByteFault, Cursor, hybrid_read, hybrid_write, write_i32_le, write_i64_le, write_u32_le,
    write_varint, write_zigzag,
};
use std::alloc::AllocError;

impl Words<'_> {
    /// The bytes of a number, for the kinds `varint`, `zigzag`, `u32`, `i32` and `i64`; of a hybrid for `hybrid`.
    pub fn written(&mut self, kind: &str) -> Result<Vec<u8>, LineFault> {
        let word = self.rest();
        let mut out = Vec::new(self.alloc());
        let grown = match kind {
            "varint" => write_varint(&mut out, self.number(word)),
            "zigzag" => write_zigzag(&mut out, self.number(word)),
            "u32" => write_u32_le(&mut out, self.number(word)),
            "i32" => write_i32_le(&mut out, self.number(word)),
            "i64" => write_i64_le(&mut out, self.number(word)),
            "hybrid" => self.write_hybrid(&mut out),
            _ => return Err(LineFault::Misspelled),
        };
        self.grown(grown);
        self.end()?;
        Ok(out)
    }

    /// Writes a hybrid, for `WIDTH VALUE ..`, where `VALUE*N` stands for it N times.
    fn write_hybrid(&mut self, out: &mut Vec<u8>) -> Result<(), AllocError> {
        let width = self.last_word();
        let width = self.width(width);
        let values = self.values();
        hybrid_write(out, width, &values)
    }

    fn values(&mut self) -> Vec<u64> {
        let mut values = Vec::new(self.alloc());
        for word in self.rest().split_whitespace() {
            let (value, times) = word.split_once('*').unwrap_or((word, "1"));
            let value = self.number::<u64>(value);
            for _ in 0..self.number::<u32>(times) {
                self.grown(values.extend_from_slice(&[value]));
            }
        }
        values
    }

    /// The bits of a value, 0 to 32, that a word spells.
    fn width(&mut self, word: &str) -> u32
        ensures { result ≤ 32 }
    {
        let width = self.number::<u32>(word);
        if width > 32 {
            self.misspelled();
            return 0;
        }
        width
    }

    /// The flags that the next word spells, `n` for one that is set and `r` for one that isn't; `-` is none.
    pub fn flags(&mut self) -> Vec<bool> {
        let mut flags = Vec::new(self.alloc());
        for letter in self.word().bytes() {
            if letter != b'n' && letter != b'r' && letter != b'-' {
                self.misspelled();
            }
            if letter != b'-' {
                self.grown(flags.extend_from_slice(&[letter == b'n']));
            }
        }
        flags
    }
}

/// Tells the values in front of a hybrid, for `WIDTH COUNT BYTES`: each with how often it stands there, and how many
/// bytes are left; or why it is refused.
pub fn tell_hybrid(words: &mut Words<'_>, told: &mut Transcript) -> Result<(), LineFault> {
    let word = words.word();
    let width = words.width(word);
    let word = words.last_word();
    let count = words.number(word);
    let bytes = words.rest_bytes()?;
    let mut cursor = Cursor::new(&bytes);
    let runs = told.given(hybrid_read(words.alloc(), &mut cursor, width, count))?;
    for run in &runs {
        told.show("", &run.value);
        told.show("*", &run.count);
        told.put(" ");
    }
    told.show("", &cursor.left().len());
    told.put(" left");
    Ok(())
}

/// Tells the number in front, and how many bytes are left.
pub fn tell_number(kind: Kind, bytes: &[u8], told: &mut Transcript) -> Result<(), LineFault> {
    let mut cursor = Cursor::new(bytes);
    if matches!(kind, Kind::Varint) {
        let number = told.given(cursor.varint())?;
        told.show("", &number);
    } else {
        let number = told.given(signed_in_front(kind, &mut cursor))?;
        told.show("", &number);
    }
    tell_left(&cursor, told);
    Ok(())
}

/// The number in front, of a kind that fits 64 bits with a sign.
fn signed_in_front(kind: Kind, cursor: &mut Cursor) -> Result<i64, ByteFault> {
    match kind {
        Kind::Zig16 => Ok(i64::from(cursor.zigzag_i16()?)),
        Kind::Zig32 => Ok(i64::from(cursor.zigzag_i32()?)),
        Kind::Zig64 => cursor.zigzag_i64(),
        Kind::U32 => Ok(i64::from(cursor.u32_le()?)),
        Kind::I32 => Ok(i64::from(cursor.i32_le()?)),
        _ => cursor.i64_le(),
    }
}

/// Tells how many bytes are left.
pub fn tell_left(cursor: &Cursor, told: &mut Transcript) {
    told.show(", ", &cursor.left().len());
    told.put(" left");
}
