//! The changes of membership that wait for the next batch.
#![tactic(auto)]

pub use queues::Queue;
pub use refusals::QueueRefusal;

mod queues;
mod refusals;
