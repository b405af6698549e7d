//! A batch of rows and the close of a stream, as what the rules let be done over a log: the rows of a batch, its file,
//! the commit of either, and what is compared with a file that stands.
#![tactic(auto)]

mod batch;
mod closing;
mod committing;
mod comparing;
mod encoding;
mod fault;
mod prepared;
mod preparing;
mod request;
mod rows_in;

pub use batch::Batch;
pub use closing::close_commit;
pub use committing::{EncodedCommit, append_commit, data_file_name};
pub use comparing::has_same;
pub use encoding::file_of;
pub use fault::SinkFault;
pub use prepared::Prepared;
pub use preparing::prepare;
pub use request::{
    BatchRequest, CloseRequest, GREATEST_NUMBER, MOST_ID_BYTES, MOST_ROWS, check, check_id,
    close_behind, is_repeated, request_behind,
};
