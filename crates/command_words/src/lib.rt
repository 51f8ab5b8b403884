//! The words of the command line, which say how a group is opened, how far its numbers go, what is drawn, and how many workers there are.
#![tactic(auto)]

pub use commands::{Command, Opening, read_words};
pub use matches::take_words;

mod arguments;
mod commands;
mod found;
mod matches;
mod numbers;
