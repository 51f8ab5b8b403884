//! HMAC with SHA-256, and the IV of the first message of a phase 2 exchange.
ghost use Rattle.std.specs.Prelude.{◌≡◌, ℕ, ◌-◌, ◌≤◌, List, [], ◌++◌, length, replicate};
ghost use Rattle.gd_cipher.specs.Blocks.{xor_all};
ghost use Rattle.gd_cipher.specs.Macs.{block_key, hmac, phase2_iv, IsHmacOf};

use sha2::{Digest, Sha256};

/// A keyed hash of a text that comes in pieces (RFC 2104).
#[derive(Drop)]
pub struct Hmac {
    inner: Sha256,
    outer: Sha256,
}

impl Hmac {
    /// Nothing of the text yet. A key of any length will do.
    pub fn new(key: &[u8]) -> Self
        ensures { IsHmacOf result key.now [] }
    {
        let block = block_of(key);
        let mut inner = Sha256::new();
        inner.update(&with_pad(block, 0x36));
        let mut outer = Sha256::new();
        outer.update(&with_pad(block, 0x5c));
        Hmac { inner, outer }
    }

    /// Takes the next piece of the text.
    pub fn add(&mut self, piece: &[u8])
        ensures { (key text : List ℕ) → IsHmacOf self.old key text → IsHmacOf self.new key (text ++ piece.now) }
    {
        self.inner.update(piece);
    }

    /// The hash of the whole text.
    pub fn finish(self) -> [u8; 32]
        ensures { (key text : List ℕ) → IsHmacOf self key text → result ≡ hmac key text }
    {
        let Hmac { inner, mut outer } = self;
        outer.update(&inner.finalize());
        outer.finalize()
    }
}

/// The key as a block: a longer one is hashed first, and a shorter one filled up.
fn block_of(key: &[u8]) -> [u8; 64]
    ensures { result ≡ block_key key.now }
{
    if key.len() > 64 {
        filled(&Sha256::digest(key))
    } else {
        filled(key)
    }
}

/// Filled up with zeros to a block.
fn filled(key: &[u8]) -> [u8; 64]
    requires { length key.now ≤ 64 }
    ensures { result ≡ key.now ++ replicate (64 - length key.now) 0 }
{
    let mut block = [0; 64];
    block[..key.len()].copy_from_slice(key);
    block
}

/// Adds `pad` to each byte.
fn with_pad(mut block: [u8; 64], pad: u8) -> [u8; 64]
    ensures { result ≡ xor_all block (replicate 64 pad) }
{
    for byte in &mut block {
        *byte ^= pad;
    }
    block
}

/// The IV of the first message of a phase 2 exchange, where SHA-256 is the negotiated hash: of the last cipher block of
/// phase 1 and the message id (RFC 2409 appendix B).
pub fn phase2_iv(last: &[u8; 16], message: &[u8; 4]) -> [u8; 16]
    ensures { result ≡ phase2_iv last.now message.now }
{
    let mut hasher = Sha256::new();
    hasher.update(last);
    hasher.update(message);
    let hash = hasher.finalize();
    let mut iv = [0; 16];
    iv.copy_from_slice(&hash[..16]);
    iv
}
