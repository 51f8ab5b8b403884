//! What a journal has, for who may not see its keys: its group, its batches, and how its octets end.
#![tactic(auto)]

pub use lists::list_journal;
pub use readings::read_listing;
pub use rows::{JournalEnd, ListedBatch, Listing};

mod lists;
mod octets;
mod readings;
mod rows;
mod texts;
