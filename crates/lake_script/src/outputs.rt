//! The output of a run, which gathers many replies into one write.
ghost use Rattle.outcomes.specs.Lines.{with_newline};
ghost use Rattle.std.specs.Prelude.{◌≡◌, ◌⊎◌, [], OnOk, OnErr, IfErr, IfSome, true, false};
ghost use Rattle.std.specs.Io.KnownBytes.{Appends};
ghost use Rattle.lake_script.specs.Streams.{held, waiting, write_failed, WritesFront};

use std::alloc::{AllocError, Global};
use std::fmt::Display;
use std::io::Write;

/// How many bytes wait before they are written, unless one reply is longer.
const FULL: usize = 65_536;

/// Why a reply was not given.
#[derive(Clone, Copy, Debug, PartialEq, Eq)]
pub enum OutputError {
    /// A write failed.
    Broken,
    /// A growth was refused.
    Memory,
}

impl From<AllocError> for OutputError {
    ghost from_gives = { λ _ e. e ≡ Memory };

    ghost use Rattle.lake_script.specs.declared.outputs.OutputError.TheVariants.{Memory};

    fn from(_error: AllocError) -> OutputError {
        OutputError::Memory
    }
}

/// A writer of replies that remembers whether a write failed.
#[derive(Drop)]
pub struct Output<W> {
    pub writer: W,
    pending: Vec<u8>,
    // The last reply that was made, before it waits: one that is made in part never waits.
    line: Vec<u8>,
    is_broken: bool,
}

/// Writes all bytes, or as many as go before a write fails.
fn write_through<W: Write>(writer: &mut W, bytes: &[u8]) -> bool
    ensures all { result ≡ true → Appends (W.contents writer.old) (W.contents writer.new) bytes.now }
    ensures front { result ≡ false → WritesFront (W.contents writer.old) (W.contents writer.new) bytes.now }
{
    let mut rest = bytes;
    while !rest.is_empty() {
        match writer.write(rest) {
            Ok(0) => return false,
            Ok(count) => rest = &rest[count..],
            Err(_error) => return false,
        }
    }
    writer.flush().is_ok()
}

impl<W: Write> Output<W> {
    /// An output with nothing waiting.
    pub fn new(alloc: Global, writer: W) -> Output<W>
        ensures writer { result.writer ≡ writer }
        ensures empty { waiting result ≡ [] }
        ensures unbroken { write_failed result ≡ false }
    {
        Output {
            writer,
            pending: Vec::new(alloc),
            line: Vec::new(alloc),
            is_broken: false,
        }
    }

    /// Writes what waits.
    pub fn flush(&mut self) -> Result<(), OutputError>
        ensures held { OnOk result (Appends (held W.contents self.old) (held W.contents self.new) []) }
        ensures through { OnOk result (waiting self.new ≡ []) }
        ensures stands { OnErr result (WritesFront (held W.contents self.old) (W.contents self.new.writer) []) }
        ensures unbroken { OnOk result (write_failed self.new ≡ write_failed self.old) }
        ensures broken { IfErr result (λ e. (e ≡ OutputError.Broken) × (write_failed self.new ≡ true)) }
    {
        if !write_through(&mut self.writer, self.pending.as_slice()) {
            self.is_broken = true;
            return Err(OutputError::Broken);
        }
        self.pending.clear();
        Ok(())
    }

    /// Gives one reply, a line. It is written with those that wait once they are many.
    pub fn say<D: Display + Drop>(&mut self, reply: D) -> Result<(), OutputError>
        ensures held { OnOk result (IfSome (D.output reply) (λ text.
            Appends (held W.contents self.old) (held W.contents self.new) (with_newline text))) }
        ensures stands { OnErr result (WritesFront (held W.contents self.old) (W.contents self.new.writer) []) }
        ensures unbroken { OnOk result (write_failed self.new ≡ write_failed self.old) }
        ensures broken { result ≡ Err OutputError.Broken → write_failed self.new ≡ true }
        ensures memory { result ≡ Err OutputError.Memory → write_failed self.new ≡ write_failed self.old }
        // Where a growth is refused, nothing of the reply waits.
        ensures whole { result ≡ Err OutputError.Memory → Appends (held W.contents self.old) (held W.contents self.new) [] }
        ensures waits { result ≡ Err OutputError.Memory → (waiting self.new ≡ waiting self.old) ⊎ (waiting self.new ≡ []) }
    {
        if self.pending.len() >= FULL {
            self.flush()?;
        }
        self.line.clear();
        if self.line.writeln(reply).is_err() {
            return Err(OutputError::Memory);
        }
        self.pending.extend_from_slice(self.line.as_slice())?;
        Ok(())
    }

    /// Gives bytes as they are. They are written with the replies that wait once they are many.
    pub fn show(&mut self, bytes: &[u8]) -> Result<(), OutputError>
        ensures held { OnOk result (Appends (held W.contents self.old) (held W.contents self.new) bytes.now) }
        ensures stands { OnErr result (WritesFront (held W.contents self.old) (W.contents self.new.writer) []) }
        ensures unbroken { OnOk result (write_failed self.new ≡ write_failed self.old) }
        ensures broken { result ≡ Err OutputError.Broken → write_failed self.new ≡ true }
        ensures memory { result ≡ Err OutputError.Memory → write_failed self.new ≡ write_failed self.old }
        // Where a growth is refused, none of the bytes wait.
        ensures whole { result ≡ Err OutputError.Memory → Appends (held W.contents self.old) (held W.contents self.new) [] }
        ensures waits { result ≡ Err OutputError.Memory → (waiting self.new ≡ waiting self.old) ⊎ (waiting self.new ≡ []) }
    {
        if self.pending.len() >= FULL {
            self.flush()?;
        }
        self.pending.extend_from_slice(bytes)?;
        Ok(())
    }
}
