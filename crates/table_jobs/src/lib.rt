//! Jobs on a table: what there is to do, the session that does it, and what it tells when it ends.
//!
//! [`run`] runs one over a store. Whoever runs a job otherwise begins its [`JobSession`] and answers each call that it
//! asks for: over a folder, or as an actor of a world.
#![tactic(auto)]

mod beginning;
mod job;
mod job_session;
mod owning;
mod running;

pub use job::{Creation, Job, StreamJob};
pub use job_session::{JobEnd, JobSession};
pub use running::run;
