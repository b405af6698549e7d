//! The frame and the footer of Parquet files, read from bytes into any allocator's memory, and the faults of
//! files. It knows nothing of pages or rows.
#![tactic(auto)]

mod fault;
mod footer;
mod frame;
mod metadata;

pub use fault::{FileError, FileFault, FooterError};
pub use footer::{ColumnChunk, Footer, RowGroup, SchemaElement};
pub use frame::{MAGIC, MAX_FILE_SIZE, split_file};
pub use metadata::MAX_FILE_ROWS;
