//! The rows of whole Parquet files, read and written, for tables of any schema. It knows nothing of logs, stores or
//! batches.
#![tactic(auto)]

mod assembling;
mod columns;
mod data_file;
mod error;
mod flat;
mod forms;
mod groups;
mod laws;
mod rows;
mod trees;
mod writing;

pub use columns::chunk_named;
pub use data_file::{FooterHeap, read_file, read_file_part};
pub use error::RowsError;
pub use laws::one_list_of_rows;
pub use parquet_footer::Footer;
pub use rows::{FilePart, read_part, read_rows};
pub use writing::write_file;
