//! What is told of a line.

ghost use Rattle.std.specs.Prelude.{◌≡◌, IfOk, Ok};

use crate::fault::LineFault;
use std::alloc::Global;
use std::fmt::{Debug, Display};
use std::str::from_utf8;

/// The longest answer that is told whole, and how much is told of each end of a longer one.
const LONGEST: usize = 1_000;

const END: usize = 300;

/// What is told where a growth of memory was refused.
const NO_MEMORY: &str = "out of memory";

/// What is told of a line: lines of text.
pub struct Transcript {
    text: String,
    /// What stands between two lines.
    gap: &'static str,
    /// A growth of memory was refused, so the text isn't whole.
    lacks_memory: bool,
}

// One call where it is dropped: functions that hold one are shorter to prove.
impl Drop for Transcript {
    fn drop(self) {
        let Transcript {
            text: _,
            gap: _,
            lacks_memory: _,
        } = self;
    }
}

impl Transcript {
    /// Nothing yet; with this text between two lines.
    pub fn new(alloc: Global, gap: &'static str) -> Transcript {
        Transcript {
            text: String::new(alloc),
            gap,
            lacks_memory: false,
        }
    }

    /// The memory that the text grows in.
    pub fn alloc(&self) -> Global {
        *self.text.allocator()
    }

    /// What is told, or that memory was refused.
    pub fn text(&self) -> &str {
        if self.lacks_memory {
            return NO_MEMORY;
        }
        self.text.as_str()
    }

    /// A growth of memory was refused.
    pub fn lack_memory(&mut self) {
        self.lacks_memory = true;
    }

    /// What is told, where it is whole.
    pub fn whole(&self) -> Result<&str, LineFault> {
        if self.lacks_memory {
            return Err(LineFault::Memory);
        }
        Ok(self.text.as_str())
    }

    /// Tells a text.
    pub fn put(&mut self, text: &str) {
        if self.text.push_str(text).is_err() {
            self.lacks_memory = true;
        }
    }

    /// Tells a text, and behind it a value as it is printed.
    pub fn show<T: Display>(&mut self, front: &str, value: &T) {
        if write!(self.text, "{front}{value}").is_err() {
            self.lacks_memory = true;
        }
    }

    /// Tells a text, and behind it a value as Rust writes it.
    pub fn debug<T: Debug>(&mut self, front: &str, value: &T) {
        if write!(self.text, "{front}{value:?}").is_err() {
            self.lacks_memory = true;
        }
    }

    /// Begins a line, of which this is the front.
    pub fn line(&mut self, front: &str) {
        if !self.text.is_empty() {
            let gap = self.gap;
            self.put(gap);
        }
        self.put(front);
    }

    /// Tells bytes as text, with a mark for what is none.
    pub fn bytes(&mut self, bytes: &[u8]) {
        match String::from_utf8_lossy(self.alloc(), bytes) {
            Ok(text) => self.put(&text),
            Err(_) => self.lacks_memory = true,
        }
    }

    /// Tells bytes in hexadecimal.
    pub fn hex(&mut self, bytes: &[u8]) {
        match hex::encode(self.alloc(), bytes) {
            Ok(digits) => self.put(&digits),
            Err(_) => self.lacks_memory = true,
        }
    }

    /// Tells bytes as text in quotes where they are plain ASCII, and else as `x'..'` in hexadecimal.
    pub fn quoted(&mut self, bytes: &[u8]) {
        match from_utf8(bytes) {
            Ok(text) if is_plain(bytes) => {
                self.show("\"", &text);
                self.put("\"");
            }
            _ => {
                self.put("x'");
                self.hex(bytes);
                self.put("'");
            }
        }
    }

    /// The value that is given; or tells, in a line of its own, why it is refused.
    pub fn given<T: Drop, E: Display + Drop>(&mut self, given: Result<T, E>) -> Result<T, LineFault>
        ensures { IfOk result (λ value. given ≡ Ok value) }
    {
        match given {
            Ok(value) => Ok(value),
            Err(error) => Err(self.refused(&error)),
        }
    }

    /// Tells, in a line of its own, why something is refused; unless it is since memory was, which all errors tell
    /// alike.
    pub fn refused<E: Display>(&mut self, error: &E) -> LineFault {
        let mut why = Transcript::new(self.alloc(), "");
        why.show("", error);
        let why = why.text();
        if why == NO_MEMORY || why == "Memory" {
            return LineFault::Memory;
        }
        self.line("refused ");
        self.put(why);
        LineFault::Refused
    }

    /// What is told in the end of a line of this number.
    pub fn ended(self, answer: Result<(), LineFault>, number: u64) -> Transcript {
        let mut told = self;
        match answer {
            Ok(()) | Err(LineFault::Refused) => {}
            Err(LineFault::Memory) => told.lacks_memory = true,
            Err(LineFault::Misspelled) => {
                told.text.clear();
                told.show("bad line ", &number);
            }
        }
        told
    }

    /// The same, of which the middle is left out where it is long.
    pub fn shortened(self) -> Transcript {
        let text = self.text();
        let count = text.len();
        if count <= LONGEST {
            return self;
        }
        let (front, behind) = text.as_bytes().split_at(END);
        let (_, back) = behind.split_at(behind.len() - END);
        let mut short = Transcript::new(self.alloc(), "");
        short.bytes(front);
        short.put(" .. ");
        short.bytes(back);
        short.show(" (", &count);
        short.put(" bytes)");
        short
    }
}

fn is_plain(bytes: &[u8]) -> bool {
    bytes.iter().all(|byte| (byte.is_ascii_graphic() || *byte == b' ') && *byte != b'"')
}
