//! What workers go by that share a list of calls: which calls are whose, and a gate that each call reaches before it is made.
#![tactic(auto)]

pub use gates::{Gate, MeetGate, OpenGate};
pub use laws::no_share_has_more_than_the_rounds;
pub use shares::{deal, gather, hands};

mod gates;
mod laws;
mod shares;
