//! What the log of a sound store leaves, and what puts leave of a sound store, stated over stores alone: definitions,
//! and laws, each a function with an empty body whose contract is the law. The product calls no code of this crate but
//! laws, which do nothing.
#![tactic(auto)]

mod admitting;
mod landing;
mod leaving;
mod loads;
mod standing;

pub use admitting::{
    a_candidate_without_conflict_goes_on, a_creation_is_admissible, an_empty_store_is_sound,
    the_next_entry_is_admissible,
};
pub use landing::{
    a_data_file_lands, a_sound_checkpoint_lands, a_sound_checkpoint_stays_sound,
    an_admissible_commit_lands, an_admissible_commit_stays_admissible,
};
pub use leaving::{
    a_checkpoint_leaves_what_its_log_leaves, a_checkpoint_stands_for_the_first_commits,
    a_sound_log_is_read, a_sound_log_leaves_its_table, the_first_commits_leave_the_first_entries,
};
pub use loads::what_a_load_may;
pub use standing::{a_sound_table_grows_at_its_end, what_a_sound_table_has_stays};
