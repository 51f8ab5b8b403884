//! What an operating system does with one file of one folder, and the calls of a disk over such a file.
#![tactic(auto)]

pub use calls::{cut, read, sync, write};
pub use folder_files::FolderFile;
pub use stages::Stage;

mod calls;
mod folder_files;
mod stages;
mod whole;
