//! What a signature is made of.
ghost use Rattle.std.specs.Prelude.{◌≡◌, ◌++◌};
ghost use Rattle.push_msg.specs.Digests.{digest};

use sha2::{Digest, Sha256};

/// The hash that is signed: of the header of a push, and of the payloads before that of the signature (RFC 6407 section 4).
pub(crate) fn digest(header: &[u8], payloads: &[u8]) -> [u8; 32]
    ensures { result ≡ digest header.now payloads.now }
{
    let mut hash = Sha256::new();
    hash.update(b"rekey");
    hash.update(header);
    hash.update(payloads);
    hash.finalize()
}
