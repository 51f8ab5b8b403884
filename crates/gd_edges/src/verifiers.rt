//! Who checks signatures.
ghost use Rattle.std.specs.Prelude.{◌≡◌, ℕ, List, Bool};
ghost use Rattle.group_terms.specs.declared.signatures.SignKind.{SignKind};

use crate::SignKind;

/// Who checks the signatures of the pushes of a group (RFC 6407 section 4).
pub trait Verifier {
    /// Whether it accepts these octets as a signature of this digest.
    ghost accepts: { Self → List ℕ → List ℕ → Bool };

    /// Which signatures it checks.
    ghost kind_of: { Self → SignKind };

    /// Whether this is a signature of the digest.
    fn check(&self, digest: &[u8; 32], signature: &[u8]) -> bool
        ensures { result ≡ accepts self.now digest.now signature.now };

    /// Which signatures it checks.
    fn kind(&self) -> SignKind
        ensures { result ≡ kind_of self.now };
}
