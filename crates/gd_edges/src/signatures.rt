//! The octets of a signature.
ghost use Rattle.std.specs.Prelude.{◌≡◌, ◌<◌, ◌≤◌, length};

use arrayvec::ArrayVec;
use std::marker::Model;

/// A signature: 1 to 512 octets.
#[derive(Drop)]
pub struct SigBytes {
    octets: ArrayVec<u8, 512>,
}

impl Model for SigBytes {
    ghost use Rattle.std.specs.Prelude.{◌<◌, ◌≤◌, ℕ, List, length};

    ghost Value = { List ℕ };

    ghost view = { λ signature. signature.octets.items };

    ghost invariant = { λ signature.
        (0 < length signature.octets.items) × (length signature.octets.items ≤ 512) };
}

impl SigBytes {
    /// A signature of these octets.
    pub fn new(octets: &[u8]) -> Self
        requires some { 0 < length octets.now }
        requires few { length octets.now ≤ 512 }
        ensures { result ≡ octets.now }
    {
        let mut signature = ArrayVec::new();
        signature.try_extend_from_slice(octets).unwrap();
        SigBytes { octets: signature }
    }

    /// The octets of the signature.
    pub fn as_slice(&self) -> &[u8]
        ensures octets { result.now ≡ self.now }
        ensures some { 0 < length result.now }
        ensures few { length result.now ≤ 512 }
    {
        self.octets.as_slice()
    }
}
