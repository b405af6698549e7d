//! What is told of cases, as it grows.

use std::alloc::Global;
use std::fmt::Display;
use std::io::Write;
use std::str;

/// What is told so far. It remembers whether memory ran out and whether a line is misspelled: so nobody has to look at
/// each step whether it failed, and what is made of a step that did is nothing, 0 or the least number that is allowed.
pub struct Transcript {
    pub alloc: Global,
    bytes: Vec<u8>,
    // Whether a growth of memory was refused.
    is_short: bool,
    // Whether the line that is read is none of a case.
    is_bad: bool,
}

// One call where it is dropped.
impl Drop for Transcript {
    fn drop(self) {
        let Transcript {
            alloc: _,
            bytes: _,
            is_short: _,
            is_bad: _,
        } = self;
    }
}

impl Transcript {
    /// Nothing is told.
    pub fn new(alloc: Global) -> Transcript {
        Transcript {
            alloc,
            bytes: Vec::new(alloc),
            is_short: false,
            is_bad: false,
        }
    }

    /// What is told.
    pub fn bytes(&self) -> &[u8] {
        &self.bytes
    }

    /// It as a text, and nothing where it is none.
    pub fn as_text(&self) -> &str {
        str::from_utf8(&self.bytes).unwrap_or("")
    }

    /// Whether a growth of memory was refused.
    pub fn is_short(&self) -> bool {
        self.is_short
    }

    /// A growth of memory was refused.
    pub fn lacks_memory(&mut self) {
        self.is_short = true;
    }

    /// Notes whether memory ran out in a step, which fails for no other cause.
    pub fn note<E: Drop>(&mut self, done: Result<(), E>) {
        if done.is_err() {
            self.is_short = true;
        }
    }

    /// Notes whether memory ran out for another.
    pub fn heed(&mut self, other: &Transcript) {
        if other.is_short {
            self.is_short = true;
        }
    }

    /// Whether the line that is read is misspelled.
    pub fn is_bad(&self) -> bool {
        self.is_bad
    }

    /// The line that is read is misspelled.
    pub fn misspelled(&mut self) {
        self.is_bad = true;
    }

    /// Ends the line of this number: one that is misspelled is told as bad.
    pub fn end_line(&mut self, number: usize) {
        if self.is_bad {
            self.is_bad = false;
            self.tell("bad line", &number);
        }
    }

    /// Adds bytes.
    pub fn add(&mut self, bytes: &[u8]) {
        let added = self.bytes.extend_from_slice(bytes);
        self.note(added);
    }

    /// Adds a text.
    pub fn text(&mut self, text: &str) {
        self.add(text.as_bytes());
    }

    /// Adds a text and a value.
    pub fn with<T: Display>(&mut self, text: &str, value: &T) {
        self.text(text);
        let added = write!(self.bytes, "{value}");
        self.note(added);
    }

    /// Adds a line.
    pub fn say(&mut self, line: &str) {
        self.add(line.as_bytes());
        self.add(b"\n");
    }

    /// Adds a line of a value.
    pub fn show<T: Display>(&mut self, value: &T) {
        self.with("", value);
        self.add(b"\n");
    }

    /// Adds a line of a word and a value.
    pub fn tell<T: Display>(&mut self, word: &str, value: &T) {
        self.text(word);
        self.with(" ", value);
        self.add(b"\n");
    }

    /// Adds a line of a word and two values.
    pub fn tell_pair<T: Display, U: Display>(&mut self, word: &str, value: &T, other: &U) {
        self.text(word);
        self.with(" ", value);
        self.with(" ", other);
        self.add(b"\n");
    }

    /// Adds a refusal.
    pub fn refuse<T: Display>(&mut self, fault: &T) {
        self.tell("refused", fault);
    }

    /// Adds a line of words, each with its count.
    pub fn tell_counts(&mut self, counts: &[(&str, u64)]) {
        let mut gap = "";
        for (word, count) in counts {
            self.text(gap);
            self.text(word);
            self.with(" ", count);
            gap = " ";
        }
        self.add(b"\n");
    }
}

/// Counts one more of a word, up to the greatest number.
pub fn add_one(counts: &mut [(&str, u64)], word: &str) {
    for (counted, count) in counts.iter_mut() {
        if *counted == word {
            *count = count.saturating_add(1);
        }
    }
}
