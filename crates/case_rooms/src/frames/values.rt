//! What policies and keys are, as a piece of a line.

use case_lines::Text;
use kd_wire::{PathKey, SealedKey, SealedKeys, TrafficValue, UpdateSpan};
use sa_wire::SaPolicy;

/// `kek SPI ALGORITHM BITS` and `tek SPI`, each if it is there.
pub fn add_policies(policy: &SaPolicy, text: &mut Text) {
    if let Some(kek) = &policy.kek {
        text.add(" kek");
        text.add_octets(&[&kek.spi]);
        text.add_numbers(&[u64::from(kek.sign.algorithm), u64::from(kek.sign.key_bits)]);
    }
    if let Some(tek) = &policy.tek {
        text.add(" tek");
        text.add_octets(&[&tek.spi]);
    }
}

/// `traffic CIPHER-KEY INTEGRITY-KEY SPI`.
pub fn add_traffic(traffic: &TrafficValue, text: &mut Text) {
    text.add(" traffic");
    text.add_octets(&[&traffic.cipher_key, &traffic.integrity_key, &traffic.spi]);
}

/// `path POSITION EPOCH IV KEY` for each key.
pub fn add_path(keys: &[PathKey], text: &mut Text) {
    for key in keys {
        text.add(" path");
        text.add_numbers(&[u64::from(key.id.number()), u64::from(key.made)]);
        text.add_octets(&[&key.value.iv, &key.value.key]);
    }
}

/// `given POSITION EPOCH POSITION EPOCH SEALED` for each key: first the key that seals it.
pub fn add_arrays(span: &UpdateSpan, body: &[u8], text: &mut Text) {
    for array in span.arrays(body) {
        add_array(array.keys, text);
    }
}

fn add_array(keys: SealedKeys, text: &mut Text) {
    for key in keys {
        add_given(&key, text);
    }
}

fn add_given(key: &SealedKey, text: &mut Text) {
    text.add(" given");
    text.add_numbers(&[
        u64::from(key.by.number()),
        u64::from(key.by_made),
        u64::from(key.gives.id.number()),
        u64::from(key.gives.made),
    ]);
    text.add_octets(&[&key.gives.sealed]);
}
