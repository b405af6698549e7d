//! Standard error, of which a write that failed is remembered.
ghost use Rattle.std.specs.Prelude.{◌≡◌, IfSome, false, true};
ghost use Rattle.outcomes.specs.Lines.{with_newline};
ghost use Rattle.lake_hints.specs.ErrorOutputs.{TellsText, error_write_failed};

use std::fmt::Display;
use std::io::Write;

/// Standard error: a writer that remembers whether a write failed. What is told is written at once and takes no memory.
#[derive(Drop)]
pub struct ErrorOutput<E> {
    pub writer: E,
    is_broken: bool,
}

impl<E: Write> ErrorOutput<E> {
    /// Standard error over this writer, of which no write failed.
    pub fn new(writer: E) -> ErrorOutput<E>
        ensures writer { result.writer ≡ writer }
        ensures unbroken { error_write_failed result ≡ false }
    {
        ErrorOutput {
            writer,
            is_broken: false,
        }
    }

    /// Tells a line. Where it can't be written, nothing is left to tell that on.
    pub fn say<D: Display + Drop>(&mut self, line: D)
        ensures { IfSome (D.output line) (λ text. TellsText E.contents self.old self.new (with_newline text)) }
    {
        let is_lost = self.writer.writeln(line).is_err();
        self.is_broken = self.is_broken || is_lost;
    }

    /// Tells a text that has newlines of its own.
    pub fn show<D: Display + Drop>(&mut self, text: D)
        ensures { IfSome (D.output text) (TellsText E.contents self.old self.new) }
    {
        let is_lost = self.writer.write_fmt(text).is_err();
        self.is_broken = self.is_broken || is_lost;
    }
}
