//! The encoded message of a digest.
ghost use Rattle.std.specs.Prelude.{◌≡◌, ℕ, ◌≤◌, ◌∷◌, ◌++◌, length};
ghost use Rattle.rsa_sign.specs.Messages.{digest_name, encoded};

/// The name of SHA-256, as it stands before a digest (RFC 8017 section 9.2, note 1).
const DIGEST_NAME: [u8; 19] = [
    0x30, 0x31, 0x30, 0x0d, 0x06, 0x09, 0x60, 0x86, 0x48, 0x01, 0x65, 0x03, 0x04, 0x02, 0x01, 0x05,
    0x00, 0x04, 0x20,
];

/// Writes the encoded message of a digest (RFC 8017 section 9.2).
pub(crate) fn encode(digest: &[u8; 32], out: &mut [u8])
    requires { 54 ≤ length out.old }
    ensures { out.new ≡ encoded (length out.old) digest.now }
{
    out.fill(0xff);
    let at = out.len() - 52;
    out[at..].copy_from_slice(&last_octets(digest));
    out[0] = 0;
    out[1] = 1;
}

/// What comes after the padding.
fn last_octets(digest: &[u8; 32]) -> [u8; 52]
    ensures len { length result ≡ 52 }
    ensures is { result ≡ 0 ∷ (digest_name ++ digest.now) }
{
    let mut last = [0; 52];
    last[1..20].copy_from_slice(&DIGEST_NAME);
    last[20..].copy_from_slice(digest);
    last
}
