//! Text as directives spell it.

use crate::transcript::Transcript;
use std::alloc::Global;

/// The letters that stand for a byte behind a backslash.
const LETTERS: [(char, u8); 3] = [('n', b'\n'), ('r', b'\r'), ('t', b'\t')];

/// Bytes by their names.
pub struct Bindings<'a> {
    named: Vec<(&'a str, Vec<u8>)>,
}

// One call where it is dropped.
impl Drop for Bindings<'_> {
    fn drop(self) {
        let Bindings { named: _ } = self;
    }
}

impl<'a> Bindings<'a> {
    /// Nothing is named.
    pub fn new(alloc: Global) -> Bindings<'a> {
        Bindings {
            named: Vec::new(alloc),
        }
    }

    /// Names the bytes that a text spells, in place of others of that name.
    pub fn name(&mut self, name: &'a str, text: &str, told: &mut Transcript) {
        let mut bytes = Vec::new(told.alloc);
        self.spell(text, &mut bytes, told);
        told.note(self.named.push((name, bytes)));
    }

    /// Adds the bytes that a text spells: `\n`, `\r` and `\t` stand for a newline, a carriage return and a tab,
    /// `\x{..}` for bytes in hexadecimal, and `${NAME}` for the bytes that were named so. Everything else, another
    /// backslash too, stands for itself.
    pub fn spell(&self, text: &str, bytes: &mut Vec<u8>, told: &mut Transcript) {
        let mut is_behind = false;
        for part in text.split('\\') {
            if is_behind {
                self.add_escaped(part, bytes, told);
            } else {
                self.add_plain(part, bytes, told);
            }
            is_behind = true;
        }
    }

    /// Adds what a backslash and the text behind it stand for.
    fn add_escaped(&self, text: &str, bytes: &mut Vec<u8>, told: &mut Transcript) {
        for (letter, byte) in LETTERS {
            if let Some(rest) = text.strip_prefix(letter) {
                told.note(bytes.push(byte));
                return self.add_plain(rest, bytes, told);
            }
        }
        match text.strip_prefix("x{") {
            Some(text) => {
                let (digits, rest) = text.split_once('}').unwrap_or(("?", ""));
                add_decoded(digits, bytes, told);
                self.add_plain(rest, bytes, told);
            }
            None => {
                told.note(bytes.push(b'\\'));
                self.add_plain(text, bytes, told);
            }
        }
    }

    /// Adds a text without backslashes.
    fn add_plain(&self, text: &str, bytes: &mut Vec<u8>, told: &mut Transcript) {
        let mut is_behind = false;
        for part in text.split("${") {
            let rest = if is_behind {
                let (name, rest) = part.split_once('}').unwrap_or(("", ""));
                self.add_named(name, bytes, told);
                rest
            } else {
                part
            };
            told.note(bytes.extend_from_slice(rest.as_bytes()));
            is_behind = true;
        }
    }

    /// Adds the bytes that were named so last.
    fn add_named(&self, name: &str, bytes: &mut Vec<u8>, told: &mut Transcript) {
        for (known, found) in self.named.iter().rev() {
            if *known == name {
                return told.note(bytes.extend_from_slice(found));
            }
        }
        told.misspelled();
    }
}

/// Adds the bytes that digits spell.
fn add_decoded(digits: &str, bytes: &mut Vec<u8>, told: &mut Transcript) {
    match hex::decode(told.alloc, digits) {
        Ok(decoded) => told.note(bytes.extend_from_slice(&decoded)),
        Err(hex::FromHexError::OutOfMemory) => told.lacks_memory(),
        Err(_error) => told.misspelled(),
    }
}
