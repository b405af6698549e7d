//! The features of tables that this crate knows (Delta PROTOCOL.md, "Table Features").

ghost use Rattle.std.specs.Prelude.{◌≡◌};
ghost use Rattle.delta_replay.specs.Support.{TellsFeature, is_known_to_readers, is_known_to_writers};

use crate::support::{SupportError, SupportFault};
use std::alloc::Global;

/// Whether a feature is known to readers.
pub(crate) fn is_known_to_readers(feature: &str) -> bool
    ensures { result ≡ is_known_to_readers feature.now }
{
    feature == "v2Checkpoint"
}

/// Whether a feature is known to writers.
pub(crate) fn is_known_to_writers(feature: &str) -> bool
    ensures { result ≡ is_known_to_writers feature.now }
{
    matches!(
        feature,
        "appendOnly" | "invariants" | "domainMetadata" | "v2Checkpoint"
    )
}

/// The fault of a feature that isn't known, or that is wanted.
pub(crate) fn unknown_feature(alloc: Global, feature: &str) -> SupportError
    ensures { TellsFeature feature.now result }
{
    match String::from_str(alloc, feature) {
        Ok(name) => SupportError::Fault(SupportFault::Feature { name }),
        Err(_) => SupportError::Memory,
    }
}
