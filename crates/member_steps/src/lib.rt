//! The steps of the members of a group: the definitions of what they do with the messages and the pushes that they get, and the calls by which they do so.
#![tactic(auto)]

pub use came::Came;
pub use members::Members;

mod answers;
mod came;
mod drawing;
mod members;
