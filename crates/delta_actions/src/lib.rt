//! Delta actions as lines of JSON: a commit's bytes and its actions, and the names of data files.
#![tactic(auto)]

mod action;
mod domains;
mod fault;
mod field;
mod file_path;
mod lent;
mod names;
mod printing;
mod reading;
mod table_format;
mod writing;

pub use action::{
    Action, Add, CheckpointMetadata, DomainMetadata, MetaData, Protocol, Remove, Txn,
};
pub use domains::{application_of, stream_domain};
pub use fault::ActionFault;
pub use file_path::FilePath;
pub use json_fields::TextMap;
pub use lent::ActionRef;
pub use names::data_file_name;
pub use printing::{print_commit, print_lent_lines, print_line};
pub use reading::{read_commit, read_line};
pub use store_core::GREATEST_VERSION;
pub use table_format::TableFormat;
