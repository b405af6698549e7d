//! The sink of a table: batches of rows are appended, and streams closed, each by a session that loads the log, puts
//! what the rules let be put, and goes past the commits of others.
#![tactic(auto)]

mod filing;
mod racing;
mod rules;
mod sink_laws;
mod sink_session;
mod sink_state;

pub use batch_core::{GREATEST_NUMBER, MOST_ID_BYTES, MOST_ROWS, Prepared, SinkFault, prepare};
pub use sink_laws::{
    a_contended_sink_tried_all, a_created_commit_is_told, a_sink_asks_for_little,
    a_sink_hands_back_what_it_learnt, what_a_sink_may,
};
pub use sink_state::{Readied, SinkEnd, SinkOutcome, SinkSession, SinkStage, SinkTask};
