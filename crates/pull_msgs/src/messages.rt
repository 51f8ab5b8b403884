//! What the messages of a pull say.
use crate::nonces::Nonce;
use group_terms::Octets;
use sa_wire::SaPolicy;

/// What the member's first message says, and the IV of the next one.
#[derive(Drop)]
pub struct First {
    pub message: [u8; 4],
    pub ni: Nonce,
    /// The type of the identification, and its octets (RFC 2407 section 4.6.2).
    pub id_type: u8,
    pub id: Octets,
    pub next_iv: [u8; 16],
}

/// What the server's answer says, and the IV of the next message.
#[derive(Drop)]
pub struct Second {
    pub nr: Nonce,
    pub policy: SaPolicy,
    pub next_iv: [u8; 16],
}

/// The member agreed; the IV of the next message.
#[derive(Clone, Copy, PartialEq, Eq)]
pub struct Third {
    pub next_iv: [u8; 16],
}
