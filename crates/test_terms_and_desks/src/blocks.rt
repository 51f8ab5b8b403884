//! Blocks under keys of both sizes.
use crate::octets::octets;
use gd_cipher::{Key128, Key256};

/// FIPS 197 of 2001, appendices B and C.1.
#[test]
fn blocks_under_keys_of_128_bits(rt: HostRuntime) {
    let first = short_key_holds(
        "2b7e151628aed2a6abf7158809cf4f3c",
        "3243f6a8885a308d313198a2e0370734",
        "3925841d02dc09fbdc118597196a0b32",
    );
    let second = short_key_holds(
        "000102030405060708090a0b0c0d0e0f",
        "00112233445566778899aabbccddeeff",
        "69c4e0d86a7b0430d8cdb78070b4c55a",
    );
    assert!(rt; first & second);
}

fn short_key_holds(key: &str, plain: &str, encrypted: &str) -> bool {
    let key = Key128::new(octets(key));
    let mut block = octets::<16>(plain);
    key.encrypt_block(&mut block);
    let there = block == octets::<16>(encrypted);
    key.decrypt_block(&mut block);
    there & (block == octets::<16>(plain))
}

/// FIPS 197 of 2001, appendix C.3, where nothing is added to the block; then SP 800-38A section F.2.5, where it is the IV or the
/// sealed block before.
#[test]
fn blocks_under_keys_of_256_bits(rt: HostRuntime) {
    let alone = long_key_holds(
        "000102030405060708090a0b0c0d0e0f101112131415161718191a1b1c1d1e1f",
        "00000000000000000000000000000000",
        "00112233445566778899aabbccddeeff",
        "8ea2b7ca516745bfeafc49904b496089",
    );
    assert!(rt; alone & chained_blocks_hold());
}

fn chained_blocks_hold() -> bool {
    let key = "603deb1015ca71be2b73aef0857d77811f352c073b6108d72d9810a30914dff4";
    let iv = "000102030405060708090a0b0c0d0e0f";
    let first = "f58c4c04d6e5f1ba779eabfb5f7bfbd6";
    let second = "9cfc4e967edb808d679f777bc6702c7d";
    let third = "39f23369a9d9bacfa530e26304231461";
    let fourth = "b2eb05e2c39be9fcda6c19078c6a9d1b";
    long_key_holds(key, iv, "6bc1bee22e409f96e93d7e117393172a", first)
        & long_key_holds(key, first, "ae2d8a571e03ac9c9eb76fac45af8e51", second)
        & long_key_holds(key, second, "30c81c46a35ce411e5fbc1191a0a52ef", third)
        & long_key_holds(key, third, "f69f2445df4f9b17ad2b417be66c3710", fourth)
}

fn long_key_holds(key: &str, before: &str, plain: &str, encrypted: &str) -> bool {
    let key = Key256::new(octets(key));
    let mut block = sum(&octets(before), &octets(plain));
    key.encrypt_block(&mut block);
    let there = block == octets::<16>(encrypted);
    key.decrypt_block(&mut block);
    there & (sum(&octets(before), &block) == octets::<16>(plain))
}

fn sum(these: &[u8; 16], those: &[u8; 16]) -> [u8; 16] {
    (u128::from_be_bytes(*these) ^ u128::from_be_bytes(*those)).to_be_bytes()
}
