//! The keys of a group with their values: what each one's last value is, and what a member is told of them.
#![tactic(auto)]

pub use laws::the_last_value_is_that_of_the_last_change;
pub use replies::{keyed, keyed_after};

mod laws;
mod replies;
