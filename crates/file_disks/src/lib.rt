//! Disks over files: over a file of a folder, over a file in memory that fails at chosen calls and can lose its power, and over a file of the system.
#![tactic(auto)]

pub use mem_files::{FilePlan, MemFile};
pub use over_files::{FileDisk, OverFile};
pub use std_files::StdFile;

mod counts;
mod mem_files;
mod over_files;
mod std_files;
