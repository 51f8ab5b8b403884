//! Who signs.
ghost use Rattle.std.specs.Prelude.{◌≡◌, ◌<◌, ◌≤◌, ℕ, List, length};
ghost use Rattle.group_terms.specs.declared.signatures.SignKind.{SignKind};

use crate::{SigBytes, SignKind};

/// Who signs the pushes of a group (RFC 6407 section 4).
pub trait Signer {
    /// The signature of a digest.
    ghost signature: { Self → List ℕ → List ℕ };

    /// How it signs.
    ghost kind_of: { Self → SignKind };

    /// How many octets each of its signatures has.
    ghost size_of: { Self → ℕ };

    /// Signs a digest.
    fn sign(&self, digest: &[u8; 32]) -> SigBytes
        ensures octets { result ≡ signature self.now digest.now }
        ensures size { length result ≡ size_of self.now }
        ensures some { 0 < length result }
        ensures few { length result ≤ 512 };

    /// How it signs.
    fn kind(&self) -> SignKind
        ensures { result ≡ kind_of self.now };

    /// How many octets each of its signatures has: 1 to 512. A datagram's length is signed too, so it has to be known before.
    fn size(&self) -> usize
        ensures size { result ≡ size_of self.now }
        ensures some { 0 < result }
        ensures few { result ≤ 512 };
}
