//! Scripts with several actors: what their lines do to a world, and [`run`], which answers any script.
//!
//! A text without such lines goes to `lake_script`, which remembers the log from line to line; any other is played in a
//! world of `stream_world`, in which a line without an actor is a job of an actor of its own that runs to its end. How
//! a line is spelled is `script_lines`' affair.
#![tactic(auto)]

mod acting;
mod alone;
mod asked;
mod engine;
mod lines;
mod named;
mod part;
mod replies;
mod running;
mod scene;
mod starting;
mod words;

pub use engine::{Ran, play};
pub use part::Part;
pub use running::{run, run_any};
pub use scene::Scene;
pub use words::needs_world;
