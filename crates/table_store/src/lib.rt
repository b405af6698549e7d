//! Which table a store holds: the one bridge from bytes to the plain table, with its laws. Beside
//! the definitions stands a plain slow program that finds the table of a small store. Of the code of
//! this crate the product calls only what tells a commit's actions apart.
#![tactic(auto)]

mod commit;
mod group;
mod held;
mod holding;
mod schema;

pub use commit::{are_same, closed_by, creation, moment_in, without_commit_info};
pub use group::{adds_in, are_txns_and_adds, txns_in};
pub use held::{Held, held_by};
pub use holding::{
    a_commit_is_one_entry_more, a_data_file_changes_no_table, a_data_file_keeps_a_store_sound,
    a_grown_store_holds_a_grown_table, a_held_table_is_its_log, a_lawful_store_has_each_batch_once,
    a_lawful_store_holds_lawful_tables, a_store_is_lawful_where_its_log_is,
    an_admissible_commit_keeps_a_store_sound, names_stand_apart, one_table,
};
