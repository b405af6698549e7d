//! Why a store isn't the opening one of a book.

use thiserror::Error;

/// Why a store isn't the opening one of a book.
#[derive(Debug, Drop, Error)]
pub enum OpeningFault {
    /// Memory ran out.
    #[error("U1 Memory")]
    Memory,
    /// The store isn't sound, and this is the least version whose commit, file or checkpoint breaks it.
    #[error("U2 Unlawful {version}")]
    Unlawful { version: u64 },
    /// The commit of this version adds a data file that is too large to be read as one of the table's, so that it isn't
    /// known whether the store is sound. All before it is.
    #[error("U2 Unlawful {version}")]
    TooLarge { version: u64, name: String },
}
