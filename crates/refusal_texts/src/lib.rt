//! What each refusal means, in one line, and whether the same call may be tried again: two tables, of what is told by
//! itself ([`refusals`]) and of what stands within that ([`faults`]), and the entry of a code, of a reply or of what a
//! text asks for. It knows no command and no fault's type: a code is a text here. The table of docs/REFUSALS.md is
//! printed from these files.
#![tactic(auto)]

mod fault_table;
mod naming;
mod refusal;
mod refusal_table;

pub use fault_table::faults;
pub use naming::{refusal_asked, refusal_named, refusal_of_reply};
pub use refusal::{Again, Refusal};
pub use refusal_table::refusals;
