//! What is shown of a group.

use crate::groups::TestCore;
use case_lines::Text;
use gcks_core::{CoreOutput, Counter, Keyed, LkhId, MemberName, PushPair, Refusal, TrafficValue};
use group_terms::{Change, KeyName, Octets, PathKey, Wrap};
use sha2::{Digest, Sha256};

/// The last leaf of the deepest tree.
const LAST_LEAF: u16 = 1023;

/// The SHA-256 of octets; `-` for none.
pub fn add_hash(octets: &[u8], text: &mut Text) {
    if octets.is_empty() {
        text.add(" -");
    } else {
        text.add_octets(&[&Sha256::digest(octets)]);
    }
}

/// A name, and what comes of its request.
pub fn add_member(member: &MemberName, word: &str, text: &mut Text) {
    text.add_letters(member.text());
    text.add(word);
}

/// Why something was refused.
pub fn add_refused(refusal: Refusal, text: &mut Text) {
    match refusal {
        Refusal::NeedsReopen => text.add("refused needs-reopen"),
        Refusal::NotMember => text.add("refused not-member"),
        Refusal::AlreadyPending => text.add("refused already-pending"),
        Refusal::DiskFault => text.add("refused disk-fault"),
        Refusal::TreeFull { held } => add_at("refused tree-full", u64::from(held), text),
        Refusal::BatchFull { pending } => add_at("refused batch-full", u64::from(pending), text),
        Refusal::NotAJournal { at } => add_at("refused not-a-journal", at, text),
        Refusal::Spent { counter, at } => add_at(spent(counter), u64::from(at), text),
        _ => text.lose(),
    }
}

fn add_at(word: &str, number: u64, text: &mut Text) {
    text.add(word);
    text.add_numbers(&[number]);
}

fn spent(counter: Counter) -> &'static str {
    match counter {
        Counter::Epoch => "refused spent epoch",
        Counter::Sequence => "refused spent sequence",
    }
}

/// `EPOCH NUMBER MEMBERS`.
fn add_counts(core: &TestCore, text: &mut Text) {
    text.add_numbers(&[
        u64::from(core.epoch()),
        u64::from(core.sequence()),
        u64::from(core.members()),
    ]);
}

/// A group that was opened, with the pair of its last batch.
pub fn add_opened(core: &TestCore, resent: &Option<PushPair>, text: &mut Text) {
    text.add("open");
    text.add_numbers(&[u64::from(core.depth())]);
    add_counts(core, text);
    add_pair(resent, text);
}

/// What came of a batch.
pub fn add_output(output: &CoreOutput, text: &mut Text) {
    text.add("batch");
    text.add_numbers(&[
        u64::from(output.epoch),
        u64::from(output.sequence),
        u64::from(output.members),
    ]);
    for wrap in output.wraps.as_slice() {
        add_wrap(wrap, text);
    }
    add_pair(&output.pushes, text);
    for (member, keyed) in output.told.as_slice() {
        text.add(" ");
        add_keyed(member, keyed, text);
    }
}

fn add_wrap(wrap: &Wrap, text: &mut Text) {
    text.add(" wrap");
    add_key(wrap.by, text);
    add_key(wrap.gives, text);
}

/// Position and epoch; position 0 is that of the traffic key.
fn add_key(name: KeyName, text: &mut Text) {
    match name {
        KeyName::Node { id, made } => text.add_numbers(&[u64::from(id.number()), u64::from(made)]),
        KeyName::Traffic { made } => text.add_numbers(&[0, u64::from(made)]),
        KeyName::Phase { .. } => text.lose(),
    }
}

/// `push NUMBER SIZE OCTETS` for each of a pair, if there is one.
fn add_pair(pair: &Option<PushPair>, text: &mut Text) {
    if let Some(pair) = pair {
        let first = u64::from(pair.first);
        add_push(first, &pair.membership, text);
        add_push(first + 1, &pair.traffic, text);
    }
}

fn add_push(number: u64, datagram: &Octets, text: &mut Text) {
    text.add(" push");
    text.add_numbers(&[number, datagram.len() as u64]);
    add_hash(datagram.as_slice(), text);
}

/// `NAME keyed EPOCH OCTETS`: the octets are the sequence number, the SPI, each key of the path with its position, its epoch and its IV, and then the
/// traffic key.
pub fn add_keyed(member: &MemberName, keyed: &Keyed, text: &mut Text) {
    let mut hash = Sha256::new();
    hash.update(&keyed.sequence.to_be_bytes());
    hash.update(&keyed.spi);
    for key in keyed.path.keys() {
        hash_key(key, &mut hash);
    }
    hash_traffic(&keyed.traffic, &mut hash);
    add_member(member, " keyed", text);
    text.add_numbers(&[u64::from(keyed.epoch)]);
    text.add_octets(&[&hash.finalize()]);
}

fn hash_key(key: &PathKey, hash: &mut Sha256) {
    hash.update(&key.id.number().to_be_bytes());
    hash.update(&key.made.to_be_bytes());
    hash.update(&key.value.iv);
    hash.update(&key.value.key);
}

/// The key of the cipher, that of the integrity algorithm, and the SPI.
fn hash_traffic(traffic: &TrafficValue, hash: &mut Sha256) {
    hash.update(&traffic.cipher_key);
    hash.update(&traffic.integrity_key);
    hash.update(&traffic.spi);
}

/// `group EPOCH NUMBER MEMBERS`, and `LEAF NAME` for each leaf that somebody has.
pub fn show(core: &TestCore, text: &mut Text) {
    text.add("group");
    add_counts(core, text);
    for number in 1..=LAST_LEAF {
        if let Some(member) = holder(core, number) {
            text.add_numbers(&[u64::from(number)]);
            text.add(" ");
            text.add_letters(member.text());
        }
    }
}

fn holder(core: &TestCore, number: u16) -> Option<MemberName> {
    core.member_at(LkhId::new(number)?)
}

/// What is known of a name: its leaf, or `-`, and whether a change of it waits.
pub fn look(core: &TestCore, member: &MemberName, text: &mut Text) {
    add_member(member, " leaf", text);
    match core.place(member) {
        Some(leaf) => text.add_numbers(&[u64::from(leaf.number())]),
        None => text.add(" -"),
    }
    text.add(if core.pending(member) {
        " pending"
    } else {
        " idle"
    });
}

/// The depth of the tree, the signature's kind of its pushes, the place of its draws, their SPI, the name of the group, whether it has to be opened again,
/// its traffic key, or `-`, and the changes that wait.
pub fn state(core: &TestCore, text: &mut Text) {
    let kind = core.sign_kind();
    text.add("state");
    text.add_numbers(&[
        u64::from(core.depth()),
        u64::from(kind.algorithm),
        u64::from(kind.key_bits),
        core.draws_at(),
    ]);
    text.add_octets(&[&core.spi()]);
    add_open_state(core, text);
    for change in core.queued().changes() {
        add_change(change, text);
    }
}

fn add_open_state(core: &TestCore, text: &mut Text) {
    text.add(" ");
    text.add_letters(core.name().text());
    text.add(if core.needs_reopen() {
        " halted"
    } else {
        " open"
    });
    if let Some(traffic) = core.traffic() {
        let mut hash = Sha256::new();
        hash_traffic(&traffic, &mut hash);
        text.add_octets(&[&hash.finalize()]);
    } else {
        text.add(" -");
    }
}

fn add_change(change: &Change, text: &mut Text) {
    text.add(match change {
        Change::In { .. } => " +",
        Change::Out { .. } => " -",
    });
    text.add_letters(change.member().text());
}
