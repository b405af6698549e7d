//! A table as a plain value, with its laws: batches and closes in the order of a log, what an
//! append answers, what a read hands out, and which tables are lawful. Beside the definitions
//! stands a plain slow program that computes them on small tables. The product calls no code of
//! this crate.
#![tactic(auto)]

mod answers;
mod lawful;
mod laws;
mod parts;
mod placed;
mod reading;
mod table;

pub use answers::{
    a_commit_is_the_next_version, a_lawful_table_was_lawful, answers_are_facts, facts_last,
};
pub use lawful::is_lawful;
pub use laws::{
    a_committed_batch_stands_already, a_new_table_is_lawful,
    a_read_hands_the_rows_between_its_offsets, an_entry_that_follows_keeps_lawful,
    appends_keep_lawful, closes_keep_lawful, live_files_have_the_rows,
    new_batches_follow_as_a_group, no_path_is_left_twice, numbers_stand_once, offsets_stay,
    reads_to_the_end_hand_out_all, resumed_reads_hand_out_the_log, rows_are_those_of_the_batches,
};
pub use parts::{
    a_part_from_the_beginning_is_a_front, a_part_is_the_only_one, a_read_comes_further,
    a_read_is_a_part, any_reader_hands_out_the_log, parts_that_follow_are_one,
};
pub use reading::{Answer, Offset};
pub use table::{AppendAnswer, Batch, Closing, Entry, Table};
