//! The table in a folder: jobs are run over its files, and then what they put is saved.

pub use folder_session::{Beside, drive_beside, run, snapshot, tail};
pub use table_folder::{
    CreateTurn, DirFolder, Folder, FolderFault, LoadFault, MemoryFolder, Reason, SaveFault, Stop,
    save,
};
