//! Texts of whole blocks, chained under keys of 128 bits.
use crate::octets::octets;
use gd_cipher::{Key128, cbc_open, cbc_seal};

/// SP 800-38A sections F.2.1 and F.2.2.
#[test]
fn a_text_is_sealed_and_opened(rt: HostRuntime) {
    assert!(rt; known_text_holds());
}

fn known_text_holds() -> bool {
    let key = Key128::new(octets("2b7e151628aed2a6abf7158809cf4f3c"));
    let iv = octets("000102030405060708090a0b0c0d0e0f");
    let plain = octets::<64>(
        "6bc1bee22e409f96e93d7e117393172aae2d8a571e03ac9c9eb76fac45af8e51\
        30c81c46a35ce411e5fbc1191a0a52eff69f2445df4f9b17ad2b417be66c3710",
    );
    let sealed = octets::<64>(
        "7649abac8119b246cee98e9b12e9197d5086cb9b507219ee95db113a917678b2\
        73bed6b8e3c1743b7116e69e222295163ff1caa1681fac09120eca307586e1a7",
    );
    let mut text = plain;
    cbc_seal(&key, &iv, &mut text);
    let there = text == sealed;
    cbc_open(&key, &iv, &mut text);
    cbc_seal(&key, &iv, &mut []);
    there & (text == plain)
}

/// Texts of 0 to 8 blocks under drawn keys and IVs are opened as they were sealed, and sealed again as they were opened.
#[test]
fn generated_texts_come_back(rt: HostRuntime) {
    assert!(rt; come_back(1, Call::Seal, Call::Open) & come_back(2, Call::Open, Call::Seal));
}

/// What is done to a text.
#[derive(Clone, Copy)]
enum Call {
    Seal,
    Open,
}

/// Whether each of 1,000 texts drawn from a seed comes back after both calls.
fn come_back(seed: u64, there: Call, back: Call) -> bool {
    let mut draws = Draws { state: seed };
    let mut holds = true;
    for round in 0..1_000 {
        holds &= comes_back(&mut draws, round % 9, there, back);
    }
    holds
}

/// Whether a text whose first blocks are sealed or opened is another one then, and comes back.
fn comes_back(draws: &mut Draws, blocks: usize, there: Call, back: Call) -> bool {
    let key = Key128::new(draws.octets());
    let iv = draws.octets();
    let drawn: [u8; 128] = draws.octets();
    let mut text = drawn;
    turn(&key, &iv, &mut text, blocks, there);
    let changed = (text == drawn) == (blocks == 0);
    turn(&key, &iv, &mut text, blocks, back);
    changed & (text == drawn)
}

/// Seals or opens the first blocks of a text.
fn turn(key: &Key128, iv: &[u8; 16], text: &mut [u8; 128], blocks: usize, call: Call) {
    let (whole, _) = text.split_at_mut(16 * blocks.min(8));
    match call {
        Call::Seal => cbc_seal(key, iv, whole),
        Call::Open => cbc_open(key, iv, whole),
    }
}

/// Octets drawn by a linear congruence.
#[derive(Drop)]
struct Draws {
    state: u64,
}

impl Draws {
    fn octets<const N: usize>(&mut self) -> [u8; N] {
        let mut octets = [0; N];
        for octet in &mut octets {
            self.state = self
                .state
                .wrapping_mul(6_364_136_223_846_793_005)
                .wrapping_add(1_442_695_040_888_963_407);
            *octet = (self.state >> 56) as u8;
        }
        octets
    }
}
