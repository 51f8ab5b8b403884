//! How signatures are made.

/// How signatures are made: the numbers that the KEK policy of a group has for it (RFC 6407 section 5.3).
#[derive(Clone, Copy, PartialEq, Eq)]
pub struct SignKind {
    /// The number of the algorithm.
    pub algorithm: u16,
    /// The key length that the policy states, in bits.
    pub key_bits: u16,
}
