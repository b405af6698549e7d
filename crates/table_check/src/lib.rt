//! Laws of the versions below which a store is sound, of a walk over its log that finds none that breaks, and of where
//! a walk can't go on: there the store is unsound.
#![tactic(auto)]

mod laws;

pub use laws::{
    a_checkpoint_has_one_list_of_lines, a_checkpoint_is_one_in_any_order, a_lawful_table_goes_on,
    a_store_begins_soundly, a_store_has_no_other_commits_and_checkpoints,
    a_store_is_sound_or_has_one_first_unsound_version, a_walk_ends, a_walk_goes_on, a_walk_stops,
};
