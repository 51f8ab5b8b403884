//! Asks the readers of the framing, of payloads, of records, of pushes and of the messages of a pull what they find in the octets that a line ends with:
//! what is read, after `ok`, or else the first fault and its place, or why the datagram is refused.
//!
//! ```text
//! header EXCHANGE OCTETS             the cookies, the message id, the next kind, the exchange and the length
//! attribute PLACE BASE OCTETS        the kind, the number or else start and length, and the place after it
//! chain FIRST-KIND DUE-KINDS BASE OCTETS
//!                                    of each payload, those before a fault too: kind, place of its header, start and length of its body
//! sa BASE OCTETS                     `kek` with SPI, algorithm and bits, and `tek` with its SPI, each if it is there
//! kd BASE OCTETS                     `traffic` with its keys and SPI, `lkh` with its SPI, and each key
//! head OCTETS                        what is written of the head of a group that is read
//! batch OCTETS                       what is written of the record of a batch that is read
//! head-fields OCTETS                 `depth`, `limit`, `name` and `spi` of the head of a group that is read
//! batch-fields OCTETS                `epoch`, `sequence`, who comes `in` and goes `out`, and the `values` of the record of a batch that is read
//! push LAST OCTETS                   the number of the push after a last one, and what it gives
//! first OCTETS                       the nonce, the octets of the identification and its type
//! second OCTETS                      the nonce and both policies
//! third OCTETS                       the IV of the next message
//! fourth OCTETS                      epoch and last number, SPI, the keys of the path, and the keys of the traffic with their SPI
//! known SPI IV KEY COOKIES SKEYID-A KEY LAST MESSAGE IV NI NR
//! ```
//!
//! The last one says what is known for the lines after it: SPI and key of the Rekey SA, the phase 1 SA, and message id, IV and nonces of
//! the pull. A key of a path is its position, epoch, IV and octets; one that an update array gives is position and epoch of the key that seals it, its own,
//! and what is sealed.

use crate::frames::bodies::{attribute, chain, header, kd, sa};
use crate::frames::pulls::{first, fourth, second, third};
use crate::frames::pushes::push;
use crate::journals::forms::{batch, batch_fields, head, head_fields};
use case_lines::{Text, number, octets};
pub use known::Known;
use std::alloc::Global;

mod bodies;
mod known;
mod pulls;
mod pushes;
mod values;

/// No line has more octets.
const MOST: usize = 65_536;

/// What a word asks, with others, of the octets of the last one. `None` where they ask for nothing that can be done.
pub fn ask(
    alloc: Global,
    known: &Option<Known>,
    word: &str,
    rest: &[&str],
    text: &mut Text,
) -> Option<()> {
    let (last, rest) = rest.split_last()?;
    let octets = octets(alloc, last)?;
    let asked = ask_of(alloc, known, word, rest, octets.as_slice(), text);
    drop(octets);
    asked
}

fn ask_of(
    alloc: Global,
    known: &Option<Known>,
    word: &str,
    rest: &[&str],
    octets: &[u8],
    text: &mut Text,
) -> Option<()> {
    if octets.len() > MOST {
        return None;
    }
    let (first, second) = (number_at(rest, 0), number_at(rest, 1));
    match word {
        "header" => header((first % 256) as u8, octets, text),
        "attribute" => attribute(first as usize, second % 65_536, octets, text),
        "chain" => return chain(alloc, rest, octets, text),
        "sa" => sa(first % 65_536, octets, text),
        "kd" => kd(first % 65_536, octets, text),
        "head" => head(alloc, octets, text),
        "batch" => batch(alloc, octets, text),
        "head-fields" => head_fields(octets, text),
        "batch-fields" => batch_fields(alloc, octets, text),
        _ => return ask_known(alloc, known, word, first, octets, text),
    }
    Some(())
}

/// The number that the word at a place is; 0 where it is none.
fn number_at(words: &[&str], place: usize) -> u32 {
    match words.get(place) {
        Some(word) => number(word).unwrap_or(0),
        None => 0,
    }
}

/// What a word asks of a datagram of which something is known.
fn ask_known(
    alloc: Global,
    known: &Option<Known>,
    word: &str,
    last: u32,
    datagram: &[u8],
    text: &mut Text,
) -> Option<()> {
    let Some(known) = known else {
        return None;
    };
    match word {
        "push" => return push(alloc, known, last, datagram, text),
        "first" => first(alloc, known, datagram, text),
        "second" => second(alloc, known, datagram, text),
        "third" => third(alloc, known, datagram, text),
        "fourth" => fourth(alloc, known, datagram, text),
        _ => return None,
    }
    Some(())
}
