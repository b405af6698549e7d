//! What is told of a check while it goes on.

use std::io::{IsTerminal, Write};
use std::rt::Clock;
use std::time::Instant;

/// How many seconds lie between two lines of progress at least.
const PAUSE: u64 = 1;

/// Clears a terminal's line from here on, where a longer one may stand that was told before.
const CLEAR: &str = "\x1b[K";

/// Who is told how far a check is. Nothing is claimed of it.
pub trait Progress {
    /// So many reads of files were done since the last listing, which told so many names. A read that finds none counts
    /// too, and not each name is read.
    fn step(&mut self, done: u64, total: u64);

    /// The check is over.
    fn finish(&mut self);
}

/// Nobody is told.
#[derive(Clone, Copy, Debug, Drop)]
pub struct NoProgress;

impl Progress for NoProgress {
    fn step(&mut self, _done: u64, _total: u64) {}

    fn finish(&mut self) {}
}

/// Somebody at a terminal is told on one line, once a second at most and not before a second is over. The line is
/// cleared at the end, since the count on it is an earlier one. What isn't a terminal is told nothing.
#[derive(Drop)]
pub struct TerminalProgress<'r, H, W> {
    clock: &'r H,
    terminal: W,
    /// When it was told last, or the check began; `None` where nothing is to be told.
    told_at: Option<Instant>,
    is_shown: bool,
}

impl<'r, H: Clock, W: Write + IsTerminal> TerminalProgress<'r, H, W> {
    /// The progress of a check that begins now.
    pub fn new(clock: &'r H, terminal: W) -> TerminalProgress<'r, H, W> {
        let told_at = if terminal.is_terminal() {
            Instant::now(clock).ok()
        } else {
            None
        };
        TerminalProgress {
            clock,
            terminal,
            told_at,
            is_shown: false,
        }
    }
}

impl<H: Clock, W: Write + IsTerminal> Progress for TerminalProgress<'_, H, W> {
    fn step(&mut self, done: u64, total: u64) {
        let Some(told_at) = self.told_at else {
            return;
        };
        let Ok(now) = Instant::now(self.clock) else {
            return;
        };
        if now.duration_since(told_at).as_secs() < PAUSE {
            return;
        }
        self.told_at = Some(now);
        self.is_shown = true;
        let _ = write!(self.terminal, "\r{done} of {total} files read{CLEAR}");
        let _ = self.terminal.flush();
    }

    fn finish(&mut self) {
        if self.is_shown {
            self.is_shown = false;
            let _ = write!(self.terminal, "\r{CLEAR}");
            let _ = self.terminal.flush();
        }
    }
}
