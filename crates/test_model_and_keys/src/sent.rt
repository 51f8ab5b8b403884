//! What a history gave its members to hold, and what it sent.
use crate::draws::{key, named};
use group_model::{
    Answer, Asked, Entry, KeyName, List, MemberName, NoMemory, Output, Outside, SentReply,
    SymReply, Wrap,
};
use std::alloc::Global;
use sym_closure::{held, sent_pairs};

/// A batch that sent one pair twice and replied to one member, and a message of a pull that told another one the traffic key.
#[test]
fn a_history_tells_what_was_held_and_sent(rt: HostRuntime) {
    assert!(rt; tells_what_was_held_and_sent(rt.alloc()));
}

fn tells_what_was_held_and_sent(alloc: Global) -> bool {
    let mut history = List::new(alloc);
    let is_made = batched(alloc, &mut history).is_ok() & served(alloc, &mut history).is_ok();
    let tells = tells_what_was_held(alloc, history.as_slice())
        & tells_what_was_sent(alloc, history.as_slice());
    drop(history);
    is_made & tells
}

fn tells_what_was_held(alloc: Global, history: &[Entry]) -> bool {
    let (a, b, c) = (named(b'a'), named(b'b'), named(b'c'));
    let names = [phase(b'b'), phase(b'a'), key(2, 1), key(1, 1), key(0, 1)];
    is_held(alloc, history, &[b, a, b], &names)
        & is_held(alloc, history, &[b], &[phase(b'b')])
        & is_held(alloc, history, &[c], &[phase(b'c'), key(0, 1)])
}

fn is_held(alloc: Global, history: &[Entry], members: &[MemberName], names: &[KeyName]) -> bool {
    match held(alloc, history, members) {
        Ok(found) => found.as_slice() == names,
        Err(NoMemory) => false,
    }
}

fn tells_what_was_sent(alloc: Global, history: &[Entry]) -> bool {
    let pairs = [
        pair(key(2, 1), key(1, 1)),
        pair(phase(b'a'), key(2, 1)),
        pair(phase(b'a'), key(1, 1)),
        pair(phase(b'a'), key(0, 1)),
        pair(phase(b'c'), key(0, 1)),
    ];
    match sent_pairs(alloc, history) {
        Ok(found) => found.as_slice() == pairs.as_slice(),
        Err(NoMemory) => false,
    }
}

/// The phase 1 key of who is called by a letter.
fn phase(letter: u8) -> KeyName {
    let member = named(letter);
    KeyName::Phase { member }
}

fn pair(by: KeyName, gives: KeyName) -> Wrap {
    Wrap { by, gives }
}

/// Adds the entry of a batch that sent a pair twice, and replied to `a` with three keys.
fn batched(alloc: Global, history: &mut List<Entry>) -> Result<(), NoMemory> {
    let inner = pair(key(2, 1), key(1, 1));
    let wraps = List::copy_of(alloc, &[inner, inner])?;
    let mut replies = List::new(alloc);
    replies.push(SentReply {
        says: said(alloc, b'a', &[key(2, 1), key(1, 1), key(0, 1)])?,
        datagram: List::new(alloc),
    })?;
    let output = Output {
        epoch: 1,
        sequence: 0,
        members: 1,
        wraps,
        pushes: None,
        replies,
    };
    history.push(entry(Asked::Batch, Answer::Batched { output }))
}

/// Adds the entry of a message of a pull that told `c` the traffic key.
fn served(alloc: Global, history: &mut List<Entry>) -> Result<(), NoMemory> {
    let says = said(alloc, b'c', &[key(0, 1)])?;
    let asked = Asked::Serve {
        member: named(b'c'),
        datagram: List::new(alloc),
    };
    let answer = Answer::Datagram {
        octets: List::new(alloc),
        names: Some(says),
    };
    history.push(entry(asked, answer))
}

/// What a reply with these keys says.
fn said(alloc: Global, letter: u8, names: &[KeyName]) -> Result<SymReply, NoMemory> {
    Ok(SymReply {
        member: named(letter),
        keyed_epoch: 1,
        sequence: 0,
        names: List::copy_of(alloc, names)?,
    })
}

fn entry(asked: Asked, answer: Answer) -> Entry {
    let outside = Outside {
        disk_failed: false,
        found: None,
        place: 0,
    };
    Entry {
        asked,
        outside,
        answer,
    }
}
