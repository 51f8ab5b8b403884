//! The leaves of a group's key tree: who has which, which change hands with a batch, and which positions are then at or above one of them; and positions
//! by their numbers.
#![tactic(auto)]

pub use marks::is_marked;
pub use positions::{node, position};

pub mod holders;
mod marks;
mod positions;
