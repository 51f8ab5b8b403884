//! What keys are called, and encryptions of one key under another.
use crate::{LkhId, MemberName};

/// What a key is called, whatever its octets are.
#[derive(Clone, Copy, PartialEq, Eq, Hash)]
pub enum KeyName {
    /// The key that a position of the tree was given in the epoch `made` (RFC 2627 section 5.4).
    Node { id: LkhId, made: u32 },
    /// The key of the group's traffic in the epoch `made`.
    Traffic { made: u32 },
    /// The key that a member's phase 1 with the server made (RFC 6407 section 2).
    Phase { member: MemberName },
}

/// A key encrypted under another one: who holds `by` learns `gives` (Wong, Gouda and Lam).
#[derive(Clone, Copy, PartialEq, Eq, Hash)]
pub struct Wrap {
    pub by: KeyName,
    pub gives: KeyName,
}
