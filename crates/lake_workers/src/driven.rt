//! What became of a session that was driven.

use log_hub::Receipt;
use table_jobs::JobEnd;

/// What a session told at its end, and the receipt of the commit that it created, if it did.
#[derive(Drop)]
pub struct Driven {
    pub end: JobEnd,
    pub receipt: Option<Receipt>,
}
