//! Messages of a pull that are read.

use crate::words::{add_number, add_shown, add_spaced, octets_of};
use case_lines::Text;
use group_terms::{MemberName, Octets};
use kd_wire::{Keyed, write_reply_kd};
use pull_msgs::{
    First, Nonce, Phase1, PullFault, read_first, read_fourth, read_second, read_third,
};
use std::alloc::Global;

/// What who reads a message knows of its pull.
#[derive(Clone, Copy)]
struct Awaited {
    phase: Phase1,
    message: [u8; 4],
    iv: [u8; 16],
    ni: Nonce,
    nr: Nonce,
    spi: [u8; 16],
}

/// A phase 1 SA in words of hexadecimal.
pub fn phase(cookies: &str, skeyid_a: &str, key: &str, last: &str) -> Phase1 {
    Phase1 {
        member: MemberName::default(),
        cookies: octets_of(cookies),
        skeyid_a: octets_of(skeyid_a),
        key: octets_of(key),
        last: octets_of(last),
    }
}

fn known_by(words: &[&str]) -> Option<Awaited> {
    let [cookies, skeyid_a, key, last, message, iv, ni, nr, spi] = words else {
        return None;
    };
    Some(Awaited {
        phase: phase(cookies, skeyid_a, key, last),
        message: octets_of(message),
        iv: octets_of(iv),
        ni: nonce(ni),
        nr: nonce(nr),
        spi: octets_of(spi),
    })
}

fn nonce(word: &str) -> Nonce {
    Nonce::read(&octets_of::<16>(word)).unwrap()
}

/// Reads the message that a word names, and says what it gives or why it is refused.
pub fn read(
    alloc: Global,
    which: &str,
    words: &[&str],
    text: &[u8],
    out: &mut Octets,
    said: &mut Text,
) -> Option<()> {
    let known = known_by(words)?;
    let Awaited {
        phase,
        message,
        iv,
        ni,
        nr,
        spi,
    } = &known;
    match which {
        "first" => match read_first(alloc, text, phase) {
            Ok(first) => add_first(&first, said),
            Err(fault) => add_fault(alloc, &fault, said),
        },
        "second" => match read_second(alloc, text, phase, message, iv, ni) {
            Ok(second) => said.add_hex(&second.next_iv),
            Err(fault) => add_fault(alloc, &fault, said),
        },
        "third" => match read_third(alloc, text, phase, message, iv, ni, nr) {
            Ok(third) => said.add_hex(&third.next_iv),
            Err(fault) => add_fault(alloc, &fault, said),
        },
        _ => match read_fourth(alloc, text, phase, message, iv, ni, nr, spi) {
            Ok(keyed) => add_keyed(&keyed, out, said),
            Err(fault) => add_fault(alloc, &fault, said),
        },
    }
    Some(())
}

fn add_first(first: &First, text: &mut Text) {
    add_spaced(&first.message, text);
    add_spaced(first.ni.octets(), text);
    add_number(u64::from(first.id_type), text);
    add_spaced(first.id.as_slice(), text);
    text.add_hex(&first.next_iv);
}

/// The epoch and the number, and the keys as a body.
pub fn add_keyed(keyed: &Keyed, out: &mut Octets, text: &mut Text) {
    add_number(u64::from(keyed.epoch), text);
    add_number(u64::from(keyed.sequence), text);
    if write_reply_kd(keyed, out).is_err() {
        text.lose();
    }
}

/// Why a message is refused; of another HASH the one that it carries and the one that is due.
fn add_fault(alloc: Global, fault: &PullFault, text: &mut Text) {
    if let PullFault::BadHash { carried, expected } = fault {
        add_spaced(carried, text);
        add_spaced(expected, text);
    }
    add_shown(alloc, fault, text);
}
