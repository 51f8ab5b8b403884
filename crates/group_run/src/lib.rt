//! A group that runs: a key server in its journal with its members, and the history of all that is asked of them.
#![tactic(auto)]

pub use deliveries::Delivery;
pub use group_server::{NewGroup, Parts};
pub use runs::GroupRun;
pub use unopened::Unopened;

mod after_turns;
mod asking;
mod batching;
mod beginning;
mod blocks;
mod boards;
mod changing;
mod deliveries;
mod delivering;
mod keys;
mod lefts;
mod lending;
mod opening;
mod pulling;
mod reading;
mod runs;
mod sending;
mod turning;
mod unopened;
mod unread;
