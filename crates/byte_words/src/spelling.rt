//! Bytes as a line of cases spells them.
//!
//! Words are separated by spaces: `AC02` is bytes in hexadecimal, `'text'` the text's bytes, `$name` the bytes that
//! were named so. `*N` directly behind one of these stands for it N times. `<` and `>` stand around bytes: `>` is their
//! count in four bytes, the low byte first. `@N=AC02` changes the bytes before it, from place N on.

use crate::words::Words;
use lake_bytes::write_u32_le;

/// The bytes so far.
#[derive(Drop)]
struct Spelling {
    bytes: Vec<u8>,
    /// What a `*N` stands behind.
    last: Vec<u8>,
    /// How many bytes stand before the last `<`.
    start: usize,
}

impl Words<'_> {
    /// The bytes that a text spells.
    pub fn spelled(&mut self, text: &str) -> Vec<u8> {
        let alloc = self.alloc();
        let mut spelling = Spelling {
            bytes: Vec::new(alloc),
            last: Vec::new(alloc),
            start: 0,
        };
        let mut is_quoted = false;
        for part in text.split('\'') {
            if is_quoted {
                spelling.last = self.copied(part.as_bytes());
                self.repeat(&mut spelling, 1);
            } else {
                self.spell_words(part, &mut spelling);
            }
            is_quoted = !is_quoted;
        }
        if !is_quoted {
            self.misspelled();
        }
        spelling.bytes
    }

    fn spell_words(&mut self, part: &str, spelling: &mut Spelling) {
        for word in part.split_whitespace() {
            self.spell(word, spelling);
        }
    }

    fn spell(&mut self, word: &str, spelling: &mut Spelling) {
        if word == "<" {
            spelling.start = spelling.bytes.len();
        } else if word == ">" {
            let count = spelling.bytes.len().saturating_sub(spelling.start);
            let count = u32::try_from(count).unwrap_or(u32::MAX);
            self.grown(write_u32_le(&mut spelling.bytes, count));
        } else if let Some(change) = word.strip_prefix('@') {
            self.change(change, &mut spelling.bytes);
        } else {
            self.spell_item(word, spelling);
        }
    }

    /// An item, so many times; or the last one so many times in place of once.
    fn spell_item(&mut self, word: &str, spelling: &mut Spelling) {
        let (item, times) = word.split_once('*').unwrap_or((word, "1"));
        let mut times = self.number::<u32>(times);
        if item.is_empty() {
            times = times.saturating_sub(1);
        } else {
            spelling.last = self.item(item);
        }
        self.repeat(spelling, times);
    }

    /// The bytes of a name or of hexadecimal digits.
    fn item(&mut self, item: &str) -> Vec<u8> {
        match item.strip_prefix('$') {
            Some(name) => self.named(name),
            None => self.decoded(item),
        }
    }

    /// So many times the last bytes.
    fn repeat(&mut self, spelling: &mut Spelling, times: u32) {
        for _ in 0..times {
            self.grown(spelling.bytes.extend_from_slice(&spelling.last));
        }
    }

    /// Other bytes from a place on.
    fn change(&mut self, change: &str, bytes: &mut [u8]) {
        let (place, digits) = change.split_once('=').unwrap_or(("", ""));
        let mut place = self.number::<usize>(place);
        for byte in &self.decoded(digits) {
            match bytes.get_mut(place) {
                Some(slot) => *slot = *byte,
                None => self.misspelled(),
            }
            place = place.saturating_add(1);
        }
    }
}
