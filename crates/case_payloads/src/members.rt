//! The member's side of a pull.

use crate::pulls::{add_keyed, phase};
use crate::words::{add_shown, add_spaced, octets_of};
use case_lines::{Text, put};
use member_pull::{GroupName, MemberPull, NoMemory, Octets, PullRefusal};
use std::alloc::Global;

/// Begins a pull, or gives it the second message, or the fourth one.
pub fn ask(
    alloc: Global,
    what: &str,
    words: &[&str],
    message: &[u8],
    pull: &mut Option<MemberPull>,
    out: &mut Octets,
    text: &mut Text,
) -> Option<()> {
    match pull {
        Some(pull) if what == "answer" => answer(alloc, message, pull, out, text),
        Some(pull) if what == "keys" => keys(alloc, message, pull, out, text),
        pull => return begin(alloc, words, pull, out),
    }
    Some(())
}

/// Begins a pull, and writes its first message.
fn begin(
    alloc: Global,
    words: &[&str],
    pull: &mut Option<MemberPull>,
    out: &mut Octets,
) -> Option<()> {
    let [cookies, skeyid_a, key, last, message, ni] = words else {
        return None;
    };
    let phase = phase(cookies, skeyid_a, key, last);
    let group = GroupName::read(b"console").unwrap();
    match MemberPull::begin(alloc, phase, octets_of(message), octets_of(ni), &group) {
        Ok(begun) => {
            let written = out.extend(begun.datagram.as_slice());
            put(pull, Some(begun.pull));
            written.ok()
        }
        Err(NoMemory) => None,
    }
}

fn answer(alloc: Global, second: &[u8], pull: &mut MemberPull, out: &mut Octets, text: &mut Text) {
    match pull.second(alloc, second) {
        Ok(third) => {
            if out.extend(third.as_slice()).is_err() {
                text.lose();
            }
        }
        Err(refusal) => add_refusal(alloc, &refusal, text),
    }
}

fn keys(alloc: Global, fourth: &[u8], pull: &mut MemberPull, out: &mut Octets, text: &mut Text) {
    match pull.fourth(alloc, fourth) {
        Ok(keyed) => add_keyed(&keyed, out, text),
        Err(refusal) => add_refusal(alloc, &refusal, text),
    }
}

/// Appends why a message is refused, after the HASH that it carries and the one that is due.
fn add_refusal(alloc: Global, refusal: &PullRefusal, text: &mut Text) {
    if let PullRefusal::BadHash { carried, expected } = refusal {
        add_spaced(carried, text);
        add_spaced(expected, text);
    }
    add_shown(alloc, refusal, text);
}
