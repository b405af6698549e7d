//! Rows that are read from a table, from one offset to the next, as a session.
#![tactic(auto)]

mod printing;
mod source_laws;
mod source_session;

pub use log_offsets::{Offset, offset_text, read_offset};
pub use log_reading::TableSchema;
pub use log_rows::{Handing, Item, LogFile, ReadRows, TailFault, VersionFault};
pub use printing::{handed_text, read_text};
pub use source_laws::what_a_read_is_shown;
pub use source_session::{ReadEnd, SourceSession, SourceStage};
