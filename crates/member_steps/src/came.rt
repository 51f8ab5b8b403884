//! What comes of a datagram that is on its way to a member.
use group_model::Answer;

/// What comes of the first datagram on its way.
#[derive(Drop)]
pub enum Came {
    /// The member ignores it.
    Ignored,
    /// The member sends the third message of its pull.
    Sends,
    /// It went missing, or the member took the keys of its fourth message; this is the answer.
    Ended { answer: Answer },
}
