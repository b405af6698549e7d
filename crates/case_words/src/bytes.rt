//! Bytes that are made of lines, and spoiled.

use crate::transcript::Transcript;

/// Adds a line.
pub fn add_line(bytes: &mut Vec<u8>, line: &str, told: &mut Transcript) {
    told.note(bytes.extend_from_slice(line.as_bytes()));
    told.note(bytes.push(b'\n'));
}

/// Adds so many lines, each of its place, from 0, between two texts.
pub fn add_many(bytes: &mut Vec<u8>, many: u64, before: &str, behind: &str, told: &mut Transcript) {
    let mut lines = Transcript::new(told.alloc);
    for place in 0..many {
        lines.with(before, &place);
        lines.say(behind);
    }
    told.note(bytes.extend_from_slice(lines.bytes()));
    told.heed(&lines);
}

/// The bytes with one of them changed.
pub fn changed(bytes: &[u8], at: usize, byte: u8, told: &mut Transcript) -> Vec<u8> {
    let mut changed = told.bytes_of(bytes);
    if let Some(place) = changed.get_mut(at) {
        *place = byte;
    }
    changed
}
