//! The data pages of one column of a Parquet file, written: their headers, their definition levels and their values in
//! PLAIN. It knows nothing of whole files.
#![tactic(auto)]

mod header;
mod laws;
mod levels;
mod page;
mod plain;

pub use laws::a_written_chunk_holds_its_column;
pub use page::{MAX_PAGE_ROWS, write_page};
