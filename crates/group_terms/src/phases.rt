//! What a member and the server share after phase 1.
use crate::{IV_OCTETS, KEY_OCTETS, MemberName};
use std::fmt;

/// What a member and the server share after phase 1 (RFC 2409 section 5): the cookies of both, the key under which messages are
/// authenticated, the key of AES under which they are encrypted, and the last block of what was encrypted.
#[derive(Clone, Copy, Default, PartialEq, Eq)]
pub struct Phase1 {
    pub member: MemberName,
    pub cookies: [u8; 16],
    pub skeyid_a: [u8; 32],
    pub key: [u8; KEY_OCTETS],
    pub last: [u8; IV_OCTETS],
}

impl fmt::Debug for Phase1 {
    ghost use Rattle.std.specs.Prelude.{Some, codes};

    ghost debug_output = { λ _. Some (codes "Phase1 { .. }") };

    fn fmt<W: fmt::Write>(&self, f: &mut fmt::Formatter<W>) -> fmt::Result {
        f.write_str("Phase1 { .. }")
    }
}
