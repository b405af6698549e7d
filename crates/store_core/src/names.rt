//! The names that a store lists, as a type.
ghost use Rattle.std.specs.Prelude.{map};
ghost use Rattle.std.specs.List.Sorted.{IsStrictlySortedBy, IsStrictlySortedBy-prop};
ghost use Rattle.std.specs.String.{string_bytes};
ghost use Rattle.store_core.specs.Objects.{name_order};

use std::sync::Arc;

/// The names that stood in a store when they were listed: they rise by their bytes, and each is there once. They are
/// shared, between threads too, so that a store that keeps them may be handed to another thread: to clone them takes
/// constant time and no memory, however many they are. It fails only where they are shared 2^63 - 1 times.
#[derive(Drop)]
pub struct Names {
    pub shared: Arc<Vec<String>>,
    pub ghost rising: { IsStrictlySortedBy name_order (map string_bytes shared.value.items) } by { IsStrictlySortedBy-prop name_order (map string_bytes shared.value.items) },
}
