//! The members of a run by their names, each with its phase 1 SA, its pull, and the store of its keys, for a process that has all of them.
#![tactic(auto)]

pub use laws::who_is_noted_is_a_peer;
pub use lent::Lent;
pub use members::Peer;
pub use peers::Peers;
pub use pulled::Pulled;

mod laws;
mod lent;
mod members;
mod peers;
mod pulled;
mod pulls;
