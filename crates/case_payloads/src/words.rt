//! What words stand for, and what is said in words.

use case_lines::{Text, array, number};
use std::alloc::Global;
use std::fmt;

/// As many octets as are asked for in hexadecimal; zeros for another word, with which no case holds.
pub fn octets_of<const N: usize>(word: &str) -> [u8; N] {
    match array(word) {
        Some(octets) => octets,
        None => [0; N],
    }
}

/// A number; 0 for another word.
pub fn number_of(word: &str) -> u32 {
    match number(word) {
        Some(number) => number,
        None => 0,
    }
}

/// Appends why something is refused.
pub fn add_shown<D: fmt::Display>(alloc: Global, shown: &D, text: &mut Text) {
    match format!(in alloc; "{shown}") {
        Ok(shown) => text.add(shown.as_str()),
        Err(_) => text.lose(),
    }
}

/// Appends octets in hexadecimal and a space.
pub fn add_spaced(octets: &[u8], text: &mut Text) {
    text.add_hex(octets);
    text.add(" ");
}

/// Appends a number and a space.
pub fn add_number(number: u64, text: &mut Text) {
    text.add_number(number);
    text.add(" ");
}
