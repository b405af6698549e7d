//! What an audit finds.

use crate::reason::Unsound;

/// What an audit finds.
#[derive(Debug, Drop)]
pub enum Verdict {
    /// The objects are sound, and so many versions have a commit.
    Sound { versions: u64 },
    /// They aren't.
    Unsound(Unsound),
}
