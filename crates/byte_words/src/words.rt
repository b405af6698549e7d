//! The words of a line.

use crate::fault::LineFault;
use hex::FromHexError;
use std::alloc::{AllocError, Global};
use std::collections::BTreeMap;
use std::str::FromStr;

/// Bytes by their names.
pub type Bindings = BTreeMap<String, Vec<u8>>;

/// The words of a line, read from the left. What can't be read is remembered, and told by [`Words::end`].
#[derive(Drop)]
pub struct Words<'a> {
    alloc: Global,
    names: &'a Bindings,
    rest: &'a str,
    fault: Option<LineFault>,
}

impl<'a> Words<'a> {
    /// The words of a text, in which bytes have these names.
    pub fn new(alloc: Global, names: &'a Bindings, text: &'a str) -> Words<'a> {
        Words {
            alloc,
            names,
            rest: text,
            fault: None,
        }
    }

    /// The memory that bytes are kept in.
    pub fn alloc(&self) -> Global {
        self.alloc
    }

    /// Why the words can't be read, if they can't.
    pub fn end(&self) -> Result<(), LineFault> {
        match self.fault {
            Some(fault) => Err(fault),
            None => Ok(()),
        }
    }

    /// A word can't be read.
    pub fn misspelled(&mut self) {
        self.fault = Some(LineFault::Misspelled);
    }

    /// Bytes grew, or their growth was refused.
    pub(crate) fn grown(&mut self, growth: Result<(), AllocError>) {
        if growth.is_err() {
            self.fault = Some(LineFault::Memory);
        }
    }

    /// The next word, behind which there has to be a space.
    pub fn word(&mut self) -> &'a str {
        if !self.rest.contains(' ') {
            self.misspelled();
        }
        self.last_word()
    }

    /// The next word, behind which there may be nothing.
    pub fn last_word(&mut self) -> &'a str {
        let (word, rest) = self.rest.split_once(' ').unwrap_or((self.rest, ""));
        self.rest = rest;
        word
    }

    /// Whether the next word is this one, which is then read.
    pub fn takes(&mut self, word: &str) -> bool {
        match self.rest.strip_prefix(word) {
            Some(rest) => {
                self.rest = rest;
                true
            }
            None => false,
        }
    }

    /// What stands behind the words that were read.
    pub fn rest(&self) -> &'a str {
        self.rest
    }

    /// The bytes that the next word spells, behind which there has to be a space.
    pub fn word_bytes(&mut self) -> Vec<u8> {
        let word = self.word();
        self.spelled(word)
    }

    /// The bytes that the rest spells, which end the line.
    pub fn rest_bytes(&mut self) -> Result<Vec<u8>, LineFault> {
        let bytes = self.spelled(self.rest);
        match self.fault {
            Some(fault) => Err(fault),
            None => Ok(bytes),
        }
    }

    /// The number that a word spells.
    pub fn number<N: FromStr + Default + Drop>(&mut self, word: &str) -> N
    where
        N::Err: Drop,
    {
        match word.parse::<N>() {
            Ok(number) => number,
            Err(_) => {
                self.misspelled();
                N::default()
            }
        }
    }

    /// The numbers of `N ..`, where `N..M` stands for those from N up to M, which isn't one.
    pub fn numbers(&mut self) -> Vec<i64> {
        let mut numbers = Vec::new(self.alloc);
        for word in self.rest.split_whitespace() {
            let (first, end) = self.range(word);
            for number in first..end {
                self.grown(numbers.extend_from_slice(&[number]));
            }
        }
        numbers
    }

    /// The first number of a word's, and the one behind the last.
    fn range(&mut self, word: &str) -> (i64, i64) {
        match word.split_once("..") {
            Some((first, end)) => (self.number(first), self.number(end)),
            None => {
                let number = self.number::<i64>(word);
                (number, number.saturating_add(1))
            }
        }
    }

    /// A copy of bytes.
    pub(crate) fn copied(&mut self, bytes: &[u8]) -> Vec<u8> {
        let mut copy = Vec::new(self.alloc);
        self.grown(copy.extend_from_slice(bytes));
        copy
    }

    /// The bytes of this name.
    pub(crate) fn named(&mut self, name: &str) -> Vec<u8> {
        match self.names.get(name) {
            Some(bytes) => self.copied(bytes),
            None => {
                self.misspelled();
                Vec::new(self.alloc)
            }
        }
    }

    /// The bytes of hexadecimal digits.
    pub(crate) fn decoded(&mut self, digits: &str) -> Vec<u8> {
        match hex::decode(self.alloc, digits) {
            Ok(bytes) => bytes,
            Err(fault) => {
                self.fault = Some(match fault {
                    FromHexError::OutOfMemory => LineFault::Memory,
                    _ => LineFault::Misspelled,
                });
                Vec::new(self.alloc)
            }
        }
    }
}
