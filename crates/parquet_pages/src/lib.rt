//! The data pages of one column of a Parquet file, read from bytes: their headers, which of the column's cells each
//! holds, and a chunk page by page. It knows nothing of whole files.
#![tactic(auto)]

mod chunk;
mod enums;
mod header;
mod laws;
mod leaf;
mod pages;
mod reader;
mod usual;

pub use chunk::{first_place, test_chunk};
pub use enums::{DATA_PAGE, MAX_PAGE_SIZE, PLAIN, RLE};
pub use header::{PageContent, PageHeader, read_header};
pub use laws::a_chunk_holds_one_column;
pub use leaf::Leaf;
pub use page_cells::{LeafType, PhysicalType, width_of};
pub use pages::{Page, read_page};
pub use reader::ColumnReader;
