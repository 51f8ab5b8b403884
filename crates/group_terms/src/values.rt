//! The octets of keys.
use crate::{List, LkhId};
use std::fmt;

/// How many octets an IV of AES has, and how many a key with 128 bits (FIPS 197).
pub const IV_OCTETS: usize = 16;

pub const KEY_OCTETS: usize = 16;

/// The value of a position's key: a key of AES with 128 bits, and the IV with which what it encrypts begins (RFC 6407 section 5.6.3.1).
#[derive(Clone, Copy, Default, PartialEq, Eq)]
pub struct NodeValue {
    pub iv: [u8; IV_OCTETS],
    pub key: [u8; KEY_OCTETS],
}

impl fmt::Debug for NodeValue {
    ghost use Rattle.std.specs.Prelude.{Some, codes};

    ghost debug_output = { λ _. Some (codes "NodeValue { .. }") };

    fn fmt<W: fmt::Write>(&self, f: &mut fmt::Formatter<W>) -> fmt::Result {
        f.write_str("NodeValue { .. }")
    }
}

/// The value of a traffic key: the key of AES, that of HMAC with SHA-256, and the SPI by which it goes (RFC 6407 section 5.6.1).
#[derive(Clone, Copy, PartialEq, Eq)]
pub struct TrafficValue {
    pub cipher_key: [u8; KEY_OCTETS],
    pub integrity_key: [u8; 32],
    pub spi: [u8; 4],
}

impl fmt::Debug for TrafficValue {
    ghost use Rattle.std.specs.Prelude.{Some, codes};

    ghost debug_output = { λ _. Some (codes "TrafficValue { .. }") };

    fn fmt<W: fmt::Write>(&self, f: &mut fmt::Formatter<W>) -> fmt::Result {
        f.write_str("TrafficValue { .. }")
    }
}

/// The value that was drawn for the new key of a position.
#[derive(Clone, Copy, Default, PartialEq, Eq)]
pub struct Drawn {
    pub id: LkhId,
    pub value: NodeValue,
}

/// The values of the keys that a batch makes: of its positions, rising, and of the traffic.
#[derive(Drop)]
pub struct BatchValues {
    pub nodes: List<Drawn>,
    pub traffic: TrafficValue,
}
