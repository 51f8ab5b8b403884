//! Works of the ciphers, and of pushes, that are done many times over, each time on what came of the time before, so that their time can be taken from
//! outside. The answer is octets of what came of it.
//!
//! ```text
//! repeat WORK COUNT
//! ```
//!
//! `seal` expands a key and seals 18 KiB under it in place, `open` opens them, `seal-short` and `open-short` do the same with 64 octets, `wrap` expands a
//! key and encrypts two blocks, `mac` hashes a piece of 4,096 octets, `updates` writes 286 update arrays, `push-write` writes the membership push with that
//! many, and `push-open` opens it.
ghost use Rattle.std.specs.Prelude.{◌≡◌, ◌%◌, ◌≤◌, length};

use crate::repeats::pushes::{push_opened, push_written, updates};
use case_lines::{Text, number};
use gd_cipher::{Hmac, Key128, cbc_open, cbc_seal};
use std::alloc::Global;

mod pushes;

/// The octets of a large datagram.
const LONG: usize = 18 * 1024;

/// Does a work as often as the words say, and shows octets of what came of it. `None` for other words, or if out of memory.
pub fn repeat(alloc: Global, words: &[&str], text: &mut Text) -> Option<()> {
    let [work, count] = words else {
        return None;
    };
    let count = number(count)?;
    text.add_hex(&repeated(alloc, work, count)?);
    Some(())
}

fn repeated(alloc: Global, work: &str, count: u32) -> Option<[u8; 16]> {
    match work {
        "seal" => on_long(alloc, true, count),
        "open" => on_long(alloc, false, count),
        "seal-short" => Some(chained(&mut [0; 64], true, count)),
        "open-short" => Some(chained(&mut [0; 64], false, count)),
        "wrap" => Some(wrap(count)),
        "mac" => Some(mac(count)),
        "updates" => updates(alloc, count).ok(),
        "push-write" => push_written(alloc, count).ok(),
        "push-open" => push_opened(alloc, count),
        _ => None,
    }
}

fn on_long(alloc: Global, seals: bool, count: u32) -> Option<[u8; 16]> {
    let mut text = vec![in alloc; 0; LONG].ok()?;
    Some(chained(&mut text, seals, count))
}

/// The last block of a text that is sealed, or opened, so many times, each time under its last block as the key.
fn chained(text: &mut [u8], seals: bool, count: u32) -> [u8; 16]
    requires some { 16 ≤ length text.old }
    requires whole { length text.old % 16 ≡ 0 }
{
    let mut last = [1; 16];
    for _ in 0..count {
        let key = Key128::new(last);
        if seals {
            cbc_seal(&key, &[2; 16], text);
        } else {
            cbc_open(&key, &[2; 16], text);
        }
        last = last_or(text, 0);
    }
    last
}

/// A block that is encrypted twice under itself as a key, so many times.
fn wrap(count: u32) -> [u8; 16] {
    let mut block = [3; 16];
    for _ in 0..count {
        let key = Key128::new(block);
        key.encrypt_block(&mut block);
        key.encrypt_block(&mut block);
    }
    block
}

/// The last octets of the hash of so many pieces of zeros.
fn mac(count: u32) -> [u8; 16] {
    let piece = [0; 4096];
    let mut hash = Hmac::new(&[4; 16]);
    for _ in 0..count {
        hash.add(&piece);
    }
    last_or(&hash.finish(), 0)
}

/// The last octets, or as many of this one where there are fewer.
fn last_or(octets: &[u8], other: u8) -> [u8; 16] {
    octets.last_chunk().copied().unwrap_or([other; 16])
}
