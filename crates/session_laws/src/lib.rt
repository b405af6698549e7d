//! What sessions may ask for and tell, in every sound store that bears their talk: laws, each a function whose contract
//! is the law, and each session's next step under them. The product calls no code of this crate.
#![tactic(auto)]

mod sessions;
mod steps;

pub use sessions::{
    what_a_checkpoint_may, what_a_load_may, what_a_read_may, what_a_session_may, what_a_stream_may,
};
pub use steps::{checkpoint_step, create_step, load_step, read_step, stream_step};
