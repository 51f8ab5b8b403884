//! Why a member does not take a push.
use crate::LkhId;
use thiserror::Error;

/// Why a member does not take a push (RFC 6407 section 4).
#[derive(Clone, Copy, Debug, PartialEq, Eq, Error)]
pub enum PushRefusal {
    /// It is for another Rekey SA: its cookies are not the SPI that the member keeps.
    #[error("the cookies are another SPI than the one that is kept")]
    OtherSpi { got: [u8; 16], kept: [u8; 16] },
    /// Its octets are no text of a push; the first fault is at this place in the datagram.
    #[error("octet {at}: no text of a push")]
    Malformed { at: u32 },
    /// The verifier does not accept its signature.
    #[error("the signature is not accepted")]
    BadSignature,
    /// Its number is not greater than the last one that was accepted.
    #[error("number {got} after {last}")]
    Stale { last: u32, got: u32 },
    /// It gives no key of the root to the member with this leaf.
    #[error("no key of the root for this leaf")]
    NoPath { leaf: LkhId },
}
