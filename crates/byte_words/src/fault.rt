//! Why a line gets no whole answer.

use std::alloc::{AllocError, AllocFailed};

/// Why a line gets no whole answer.
#[derive(Clone, Copy)]
pub enum LineFault {
    /// A growth of memory was refused.
    Memory,
    /// Its words are misspelled.
    Misspelled,
    /// What it asks for is refused, and why is told already.
    Refused,
}

impl From<AllocError> for LineFault {
    fn from(_error: AllocError) -> LineFault {
        LineFault::Memory
    }
}

impl<T: Drop> From<AllocFailed<T>> for LineFault {
    fn from(_error: AllocFailed<T>) -> LineFault {
        LineFault::Memory
    }
}
