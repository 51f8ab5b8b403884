//! A value that is kept at a desk: a sum, with all that was added to it.
#![tactic(auto)]

pub use sums::Sum;

mod sums;
