//! Pushes.
ghost use Rattle.std.specs.Prelude.{◌≤◌, ℕ, List, Bool, false, cond, length, IfOk};
ghost use Rattle.gd_edges.specs.Signatures.{accepts_test};

use crate::words::{add_number, add_shown, number_of, octets_of};
use case_lines::Text;
use gd_edges::{SignKind, TestSigner, TestVerifier, Verifier};
use group_terms::{NoMemory, NodeValue, Octets};
use push_msg::{OpenBody, OpenPush, PushHead, Room, open_push, write_membership};
use std::alloc::Global;

/// Checks signatures of this kind; accepts those of tests, or none.
#[derive(Clone, Copy)]
struct Checks {
    kind: SignKind,
    accepts: bool,
}

impl Verifier for Checks {
    ghost accepts = { λ checks digest signature. cond checks.accepts (accepts_test digest signature) false };

    ghost kind_of = { λ checks. checks.kind };

    fn check(&self, digest: &[u8; 32], signature: &[u8]) -> bool {
        if self.accepts {
            TestVerifier::new().check(digest, signature)
        } else {
            false
        }
    }

    fn kind(&self) -> SignKind {
        self.kind
    }
}

/// A SPI and a KEK.
#[derive(Clone, Copy)]
struct RekeyKey {
    spi: [u8; 16],
    kek: NodeValue,
}

/// The SPI and the KEK of words.
fn rekey_key(spi: &str, iv: &str, key: &str) -> RekeyKey {
    let kek = NodeValue {
        iv: octets_of(iv),
        key: octets_of(key),
    };
    let spi = octets_of(spi);
    RekeyKey { spi, kek }
}

/// Opens a push, and says what it gives or why it is refused, and how much the room has then; or writes it before.
pub fn open(
    alloc: Global,
    what: &str,
    words: &[&str],
    octets: &[u8],
    room: &mut Room,
    text: &mut Text,
) -> Option<()> {
    let [spi, iv, key, number, kind] = words else {
        return None;
    };
    let (known, number) = (rekey_key(spi, iv, key), number_of(number));
    let checks = who_checks(kind, what != "unsigned");
    if what == "membership" {
        push_arrays(alloc, &known, number, &checks, octets, room, text);
    } else {
        open_under(alloc, &known, number, &checks, octets, room, text);
    }
    Some(())
}

/// Who checks signatures of a kind in hexadecimal.
fn who_checks(kind: &str, accepts: bool) -> Checks {
    let [algorithm_high, algorithm, bits_high, bits] = octets_of::<4>(kind);
    let kind = SignKind {
        algorithm: u16::from_be_bytes([algorithm_high, algorithm]),
        key_bits: u16::from_be_bytes([bits_high, bits]),
    };
    Checks { kind, accepts }
}

fn open_under(
    alloc: Global,
    known: &RekeyKey,
    last: u32,
    checks: &Checks,
    push: &[u8],
    room: &mut Room,
    text: &mut Text,
) {
    match open_push(push, &known.spi, &known.kek, last, checks, room) {
        Ok(open) => add_open(&open, text),
        Err(refusal) => add_shown(alloc, &refusal, text),
    }
    text.add(" ");
    text.add_number(room.text().len() as u64);
}

fn add_open(open: &OpenPush, text: &mut Text) {
    add_number(u64::from(open.sequence), text);
    match &open.body {
        OpenBody::Membership { root_made, span } => {
            add_number(u64::from(*root_made), text);
            text.add_number(span.start as u64);
        }
        OpenBody::Traffic { traffic } => {
            text.add_hex(&traffic.cipher_key);
            text.add_hex(&traffic.integrity_key);
            text.add_hex(&traffic.spi);
        }
    }
}

/// Writes a push with so many times these arrays, opens it, and says what the room has then.
fn push_arrays(
    alloc: Global,
    known: &RekeyKey,
    count: u32,
    checks: &Checks,
    array: &[u8],
    room: &mut Room,
    text: &mut Text,
) {
    match repeated(alloc, count, array) {
        Ok(arrays) => push_all(alloc, known, checks, arrays.as_slice(), room, text),
        Err(NoMemory) => text.lose(),
    }
}

fn push_all(
    alloc: Global,
    known: &RekeyKey,
    checks: &Checks,
    arrays: &[u8],
    room: &mut Room,
    text: &mut Text,
)
    requires { length arrays.now ≤ 64000 }
{
    let head = PushHead {
        spi: known.spi,
        sequence: 2,
    };
    match write_membership(alloc, &head, arrays, &known.kek, &TestSigner::new()) {
        Ok(push) => {
            add_number(push.len() as u64, text);
            open_under(alloc, known, 1, checks, push.as_slice(), room, text);
        }
        Err(NoMemory) => text.lose(),
    }
    if let Some((before, after)) = room.text().split_at_checked(25) {
        text.add(" ");
        text.add_hex(before);
        text.add(if after == arrays {
            " and the arrays"
        } else {
            " and others"
        });
    }
}

/// So many arrays.
fn repeated(alloc: Global, count: u32, array: &[u8]) -> Result<Octets, NoMemory>
    ensures { IfOk result (λ arrays. length arrays ≤ 64000) }
{
    let mut arrays = Octets::new(alloc);
    for _ in 0..count {
        arrays.extend(array)?;
    }
    if arrays.len() > 64_000 {
        return Err(NoMemory);
    }
    Ok(arrays)
}
