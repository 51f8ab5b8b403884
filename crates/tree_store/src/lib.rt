//! The group on disk: a journal whose records are the head of a group and its batches, each of them due after those before it.
#![tactic(auto)]

pub use dues::Due;
pub use group_records::{Head, Stored};
pub use laws::a_file_has_one_group;
pub use replays::Replay;
pub use stores::TreeStore;
pub use tree_journal::{FormatRefusal, JournalRefusal};

mod commits;
mod dues;
mod laws;
mod openings;
mod readings;
mod replays;
mod stores;
