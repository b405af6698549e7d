//! The cells in the body of a page, read from bytes: definition levels, and values in PLAIN. It knows nothing of a
//! page's header, nor of what stands behind the page.
#![tactic(auto)]

mod fault;
mod levels;
mod part;
mod plain;
mod testing;
mod types;
mod values;

pub use fault::{bad_bytes, bad_page};
pub use levels::{LevelsTold, present, test_levels, width_of};
pub use part::cut_runs;
pub use plain::pass_values;
pub use testing::{are_in_range, are_proper};
pub use types::{LeafType, PhysicalType};
pub use values::PlainReader;
