//! A board shows the last pair of an epoch and a sequence number that its publisher published. No call waits: threads read it without a lock.
#![tactic(auto)]

pub use boards::{BoardMade, EpochBoard};
pub use laws::{a_look_between_meetings_is_exact, later_pairs_are_no_less};
pub use moments::Moment;
pub use pairs::Seen;
pub use passes::{BoardPass, Publisher};

mod boards;
mod laws;
mod moments;
mod pairs;
mod passes;
mod rule;
