//! HMAC with SHA-256, and the IV that is a hash.
use crate::octets::octets;
use gd_cipher::{Hmac, phase2_iv};

const LONG_TEXT: &[u8] = b"This is a test using a larger than block-size key and a larger than \
    block-size data. The key needs to be hashed before being used by the HMAC algorithm.";

#[test]
fn texts_are_hashed(rt: HostRuntime) {
    assert!(rt; texts_of_the_standard() & keys_round_a_block() & is_cut() & iv_is_due());
}

/// RFC 4231 sections 4.2 to 4.5, 4.7 and 4.8, of keys shorter and longer than a block. The last one comes in two pieces too.
fn texts_of_the_standard() -> bool {
    let counting =
        b"\x01\x02\x03\x04\x05\x06\x07\x08\x09\x0a\x0b\x0c\x0d\x0e\x0f\x10\x11\x12\x13\x14\x15\x16\x17\x18\x19";
    let long = b"Test Using Larger Than Block-Size Key - Hash Key First";
    let last = "9b09ffa71b942fcb27635fbcd5b0e944bfdc63644f0713938a7f51535c3a35e2";
    is_hashed(
        &[0x0b; 20],
        b"Hi There",
        b"",
        "b0344c61d8db38535ca8afceaf0bf12b881dc200c9833da726e9376c2e32cff7",
    ) & is_hashed(
        b"Jefe",
        b"what do ya want for nothing?",
        b"",
        "5bdcc146bf60754e6a042426089575c75a003f089d2739839dec58b964ec3843",
    ) & is_hashed(
        &[0xaa; 20],
        &[0xdd; 50],
        b"",
        "773ea91e36800e46854db8ebd09181a72959098b3ef8c122d9635514ced565fe",
    ) & is_hashed(
        counting,
        &[0xcd; 50],
        b"",
        "82558a389a443c0ea4cc819899f2083a85f0faa3e578f8077a2e3ff46729665b",
    ) & is_hashed(
        &[0xaa; 131],
        long,
        b"",
        "60e431591ee0b67f0d8a26aacbf5b77f8e0bc6213728c5140546040f0ee37f54",
    ) & is_hashed(&[0xaa; 131], LONG_TEXT, b"", last)
        & is_hashed(&[0xaa; 131], &LONG_TEXT[..70], &LONG_TEXT[70..], last)
}

/// These hashes were computed by another implementation.
fn keys_round_a_block() -> bool {
    is_hashed(
        b"",
        b"text",
        b"",
        "0611b704abab473f956257a09cc2fc2c867211d077bdffc5a91bd8a5047826ff",
    ) & is_hashed(
        &[0x4b; 64],
        b"text",
        b"",
        "2e587a1ea3f619a0f8c5ed8217be9e0d942d26085a1bd2aae438839cde0fdf14",
    ) & is_hashed(
        &[0x4b; 65],
        b"text",
        b"",
        "a794bc1fb774533c59e5145ba0bce2999f4456d807c7e80daa7f9bb4ebf0ac07",
    )
}

/// Whether a text of two pieces has this hash under a key.
fn is_hashed(key: &[u8], first: &[u8], second: &[u8], want: &str) -> bool {
    hash(key, first, second) == octets::<32>(want)
}

fn hash(key: &[u8], first: &[u8], second: &[u8]) -> [u8; 32] {
    let mut hash = Hmac::new(key);
    hash.add(first);
    hash.add(second);
    hash.finish()
}

/// RFC 4231 section 4.6, which has the first 16 octets alone.
fn is_cut() -> bool {
    let cut = hash(&[0x0c; 20], b"Test With Truncation", b"");
    &cut[..16] == octets::<16>("a3b6167473100ee06e0c796c2955552b").as_slice()
}

/// The IV was computed by another implementation.
fn iv_is_due() -> bool {
    let last = octets("000102030405060708090a0b0c0d0e0f");
    phase2_iv(&last, &[0xde, 0xad, 0xbe, 0xef]) == octets::<16>("dd8b3d40e9b84419dad620439c1c814f")
}
