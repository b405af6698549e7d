//! The input of a run, which is read to its end before a line is run.
ghost use Rattle.std.specs.Prelude.{◌≡◌, ◌≢◌, ◌+◌, ◌<◌, ◌≤◌, length, true, false, IfOk, OnOk, IfErr, IfSome};
ghost use Rattle.std.specs.Io.{ReadsAtMost};
ghost use Rattle.std.specs.Io.KnownBytes.{ReadConsumes, IsAtEnd};
ghost use Rattle.lake_script.specs.Streams.{unread, read_failed, Moves};

use std::alloc::{AllocError, Global};
use std::io::Read;

/// How many bytes one read asks for.
const CHUNK: usize = 65_536;

/// How many bytes an input has at most: 1 GiB.
pub const MOST_BYTES: usize = 1_073_741_824;

/// How many reads an input takes at most, the one that finds its end counted.
pub const MOST_READS: usize = 1_048_576;

/// Why an input was not read to its end.
#[derive(Clone, Copy, Debug, PartialEq, Eq)]
pub enum InputError {
    /// A read failed.
    Broken,
    /// It passes 1 GiB.
    TooLong,
    /// It took 1,048,576 reads, and more is left.
    TooManyReads,
    /// A growth was refused.
    Memory,
}

impl From<AllocError> for InputError {
    ghost from_gives = { λ _ e. e ≡ Memory };

    ghost use Rattle.lake_script.specs.declared.inputs.InputError.TheVariants.{Memory};

    fn from(_error: AllocError) -> InputError {
        InputError::Memory
    }
}

/// Room for one read.
fn zeros(alloc: Global, count: usize) -> Result<Vec<u8>, AllocError>
    ensures { IfOk result (λ room. length room.items ≡ count) }
{
    vec![in alloc; 0u8; count]
}

/// A reader that remembers whether its last read failed.
#[derive(Drop)]
pub struct Input<R> {
    pub reader: R,
    is_broken: bool,
}

impl<R: Read> Input<R> {
    /// An input of which nothing was read.
    pub fn new(reader: R) -> Input<R>
        ensures reader { result.reader ≡ reader }
        ensures unbroken { read_failed result ≡ false }
    {
        Input {
            reader,
            is_broken: false,
        }
    }

    /// One read.
    fn read(&mut self, buffer: &mut [u8]) -> Result<usize, InputError>
        ensures bound { ReadsAtMost result buffer.new }
        ensures bytes { ReadConsumes (unread R.remaining self.old) (unread R.remaining self.new) result buffer.new }
        ensures broken { IfErr result (λ e. (e ≡ InputError.Broken) × (read_failed self.new ≡ true)) }
        ensures unbroken { OnOk result (read_failed self.new ≡ false) }
    {
        match self.reader.read(buffer) {
            Ok(count) => {
                self.is_broken = false;
                Ok(count)
            }
            Err(_error) => {
                self.is_broken = true;
                Err(InputError::Broken)
            }
        }
    }

    /// One read, whose bytes go behind the text. False where the input has ended.
    fn read_more(&mut self, chunk: &mut [u8], text: &mut Vec<u8>) -> Result<bool, InputError>
        requires room { 0 < length chunk.old }
        requires bounded { length text.old.items ≤ MOST_BYTES }
        ensures moves { OnOk result (Moves (unread R.remaining self.old) (unread R.remaining self.new) text.old.items text.new.items) }
        ensures more { result ≡ Ok true → length text.old.items < length text.new.items }
        ensures end { result ≡ Ok false → IsAtEnd (unread R.remaining self.new) }
        ensures bounded { OnOk result (length text.new.items ≤ MOST_BYTES) }
        ensures broken { result ≡ Err InputError.Broken → read_failed self.new ≡ true }
        ensures unbroken { result ≢ Err InputError.Broken → read_failed self.new ≡ false }
        ensures too_long { result ≡ Err InputError.TooLong
            → IfSome (unread R.remaining self.old) (λ known. MOST_BYTES < length text.old.items + length known) }
        ensures not_counted { result ≢ Err InputError.TooManyReads }
    {
        let count = self.read(chunk)?;
        if count > MOST_BYTES - text.len() {
            return Err(InputError::TooLong);
        }
        text.extend_from_slice(&chunk[..count])?;
        Ok(count != 0)
    }

    /// All bytes to the input's end.
    pub fn read_to_end(&mut self, alloc: Global) -> Result<Vec<u8>, InputError>
        ensures all { IfOk result (λ text. IfSome (unread R.remaining self.old) (λ known. text.items ≡ known)) }
        ensures bounded { IfOk result (λ text. length text.items ≤ MOST_BYTES) }
        ensures broken { result ≡ Err InputError.Broken → read_failed self.new ≡ true }
        ensures unbroken { OnOk result (read_failed self.new ≡ false) }
        ensures too_long { result ≡ Err InputError.TooLong
            → IfSome (unread R.remaining self.old) (λ known. MOST_BYTES < length known) }
        ensures too_many { result ≡ Err InputError.TooManyReads
            → IfSome (unread R.remaining self.old) (λ known. MOST_READS ≤ length known) }
    {
        let mut text = Vec::new(alloc);
        let mut chunk = zeros(alloc, CHUNK)?;
        for _ in 0..MOST_READS {
            if !self.read_more(chunk.as_mut_slice(), &mut text)? {
                return Ok(text);
            }
        }
        Err(InputError::TooManyReads)
    }
}
