//! How many types a reader has met.

ghost use Rattle.schema_tree.specs.Internal.{met_of, CountsAs};
ghost use Rattle.schema_tree.specs.Reading.{counted};
ghost use Rattle.serde_json.specs.View.{view};

use crate::fault::SchemaFault;
use serde_json::Value;

/// The most types that a schema may have, the root counted.
pub const MAX_NODES: u32 = 1_024;

/// The most leaves that a schema may have.
pub const MAX_LEAVES: u32 = 256;

/// How many types were met so far, and how many of them are given by a text.
#[derive(Drop)]
pub(crate) struct Counts {
    pub nodes: u32,
    pub leaves: u32,
}

impl Counts {
    /// One more type. TooMany where that is above the limits.
    #[tactic(auto, unfolding(crate::specs::Reading::counted))]
    pub(crate) fn count(&mut self, value: &Value) -> Result<(), SchemaFault>
        ensures { CountsAs (counted (view value.now) (met_of self.old)) result self.new }
    {
        if self.nodes >= MAX_NODES {
            return Err(SchemaFault::TooMany);
        }
        if value.is_string() {
            if self.leaves >= MAX_LEAVES {
                return Err(SchemaFault::TooMany);
            }
            self.leaves += 1;
        }
        self.nodes += 1;
        Ok(())
    }
}
