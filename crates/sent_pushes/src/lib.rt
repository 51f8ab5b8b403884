//! Which entry of a history sent the last push of each sequence number.
#![tactic(auto)]

pub use laws::{a_noted_push_is_found, the_next_number_is_the_least};
pub use notes::Note;
pub use sent::SentPushes;

mod laws;
mod notes;
mod sent;
