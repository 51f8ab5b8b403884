//! What the words of a line stand for; `None` where they stand for nothing, or out of memory.

use std::alloc::Global;

/// A number of 32 bits.
pub fn number(word: &str) -> Option<u32> {
    word.parse::<u32>().ok()
}

/// A number of 64 bits.
pub fn long_number(word: &str) -> Option<u64> {
    word.parse::<u64>().ok()
}

/// As many octets as are asked for, in hexadecimal.
pub fn array<const N: usize>(word: &str) -> Option<[u8; N]> {
    let mut octets = [0; N];
    match hex::decode_to_slice(word, &mut octets) {
        Ok(()) => Some(octets),
        Err(_) => None,
    }
}

/// Octets in hexadecimal, or `-` for none.
pub fn octets(alloc: Global, word: &str) -> Option<Vec<u8>> {
    if word == "-" {
        return Some(Vec::new(alloc));
    }
    hex::decode(alloc, word).ok()
}
