//! A table in a folder: its objects as files, loaded into a store, and a store's new objects saved as files.
//!
//! `Folder` is what a table's folder is to the code above it. `DirFolder` is one on a disk, `MemoryFolder` one in
//! memory that can be made to stop. [`load`] makes a store of a folder's files, [`load_log`] one of those of the log,
//! and [`save`] puts the objects that weren't loaded into the folder: new data files are made before new commits, and
//! these in rising order.
#![tactic(auto)]

mod dir;
mod disk;
mod fault;
mod folder;
mod gaps;
mod kind;
mod loading;
mod memory;
mod naming;
mod reason;
mod saving;

pub use dir::DirFolder;
pub use fault::{FolderFault, LoadFault, SaveFault};
pub use folder::Folder;
pub use loading::{load, load_log};
pub use memory::{CreateTurn, MemoryFolder, Stop};
pub use naming::is_table_name;
pub use reason::Reason;
pub use saving::save;
