//! The values of a group's keys, and what is drawn for those of a batch.
#![tactic(auto)]

pub use drawing::{draw_values, joined, number_of};
pub use keeping::KeptValues;

mod drawing;
mod keeping;
