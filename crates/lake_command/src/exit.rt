//! How a command ends.

/// The exit status of a command that was done.
pub const DONE: u8 = 0;

/// The exit status of a command that was refused.
pub const REFUSED: u8 = 1;

/// The exit status of words or of a line that can't be read.
pub const MISUSED: u8 = 2;

/// How a command ended.
#[derive(Clone, Copy)]
pub struct Exit {
    /// The exit status.
    pub status: u8,
    /// Whether a growth was refused on the way, or an object would have passed 64 MiB.
    pub is_short: bool,
}
