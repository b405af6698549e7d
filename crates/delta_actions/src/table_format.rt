//! How a table's files are encoded.

ghost use Rattle.std.specs.Prelude.{◌≡◌, IfOk};
ghost use Rattle.delta_actions.specs.Kinds.{parquet};
ghost use Rattle.delta_actions.specs.Action.{format_view};

use json_fields::TextMap;
use std::alloc::{AllocError, Global};

/// The encoding of a table's files (Delta PROTOCOL.md, "Format Specification").
pub struct TableFormat {
    /// The encoding's name.
    pub provider: String,
    /// The encoding's settings.
    pub options: TextMap,
}

// By hand, so that a drop is one call to prove and not all that it holds (docs/GATE.md).
impl Drop for TableFormat {
    fn drop(self) {
        let TableFormat {
            provider: _,
            options: _,
        } = self;
    }
}

impl TableFormat {
    /// Parquet without options, which each table of Delta's has.
    pub fn parquet(alloc: Global) -> Result<TableFormat, AllocError>
        ensures { IfOk result (λ f. format_view f ≡ parquet) }
    {
        Ok(TableFormat {
            provider: String::from_str(alloc, "parquet")?,
            options: TextMap::new(alloc),
        })
    }
}
