//! What a datagram makes of a peer's pull.
use group_terms::Keyed;

/// What comes of a datagram that was given to a peer's pull.
#[derive(Drop)]
pub enum Pulled {
    /// The pull refused it, or waits for none; or there is no pull.
    Ignored,
    /// It was the second message, and the peer sends the third one.
    Sends,
    /// It was the fourth message, which tells these keys.
    Told { keyed: Keyed },
}
