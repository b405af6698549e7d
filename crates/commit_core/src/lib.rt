//! What is done to a table's log: its creation and the puts of a commit, each as a session, what each version holds,
//! and which commits conflict.
#![tactic(auto)]

mod candidate;
mod commit_fault;
mod commit_laws;
mod commit_session;
mod commit_state;
mod conflict_kind;
mod conflict_laws;
mod conflicting;
mod create_laws;
mod create_session;
mod create_state;
mod creating;
mod fault;
mod versions;

pub use candidate::Candidate;
pub use commit_fault::CommitFault;
pub use commit_laws::{a_commit_asks_for_little, a_created_commit_is_told, what_a_commit_may};
pub use commit_state::{CommitOutcome, CommitSession, CommitStage};
pub use conflict_kind::Conflict;
pub use conflict_laws::{a_candidate_reads_its_own, other_streams_do_not_conflict};
pub use conflicting::conflict;
pub use create_laws::{a_creation_over_one_store, what_a_creation_may};
pub use create_state::{CreateSession, CreateStage};
pub use fault::CreateFault;
pub use session_core::{Reply, Request, Session, Step};
pub use snapshot_core::{CheckpointEnd, CheckpointSession, CheckpointStage};
pub use table_log::{LoadSession, LoadStage};
pub use versions::history;
