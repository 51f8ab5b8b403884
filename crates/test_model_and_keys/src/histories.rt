//! What histories say of their epochs, and of the keys of members.
ghost use Rattle.std.specs.Prelude.{◌≤◌, length};

use crate::draws::{key, named};
use group_model::{Batch, Change, History, LkhId, MOST_CHANGES, MemberName};
use std::alloc::Global;

/// The number of a position and the epoch at which its key was made; the traffic key has the number 0.
type Key = (u16, u32);

/// What an epoch of a tree of depth 2 is.
struct Epoch {
    epoch: u32,
    members: u32,
    /// The leaves of `a` to `d`; 0 where there is none.
    leaves: [u16; 4],
    /// The epochs at which the positions 1 to 8 got their keys; 0 where they got none.
    made: [u32; 8],
    /// What is encrypted with the batch: under which key, and which one.
    wraps: &'static [[Key; 2]],
    /// The keys of some members, each from its leaf up. Who has none is no member.
    paths: &'static [(u8, &'static [Key])],
}

/// The epoch before the first batch.
const BEFORE: Epoch = Epoch {
    epoch: 0,
    members: 0,
    leaves: [0, 0, 0, 0],
    made: [0, 0, 0, 0, 0, 0, 0, 0],
    wraps: &[],
    paths: &[(b'a', &[])],
};

/// The first epoch of `a`, `b` and `c`.
const THREE: Epoch = Epoch {
    epoch: 1,
    members: 3,
    leaves: [4, 5, 6, 0],
    made: [1, 1, 1, 1, 1, 1, 0, 0],
    wraps: &[],
    paths: &[
        (b'a', &[(4, 1), (2, 1), (1, 1)]),
        (b'b', &[(5, 1), (2, 1), (1, 1)]),
    ],
};

/// Who comes in with the first batch, who goes out with the second, and what the history says of its epochs.
static HISTORIES: [(&[u8], &[u8], &[Epoch]); 3] = [
    (
        b"abc",
        b"b",
        &[
            BEFORE,
            THREE,
            Epoch {
                epoch: 2,
                members: 2,
                leaves: [4, 0, 6, 0],
                made: [2, 2, 1, 1, 2, 1, 0, 0],
                wraps: &[
                    [(4, 1), (2, 2)],
                    [(2, 2), (1, 2)],
                    [(3, 1), (1, 2)],
                    [(1, 2), (0, 2)],
                ],
                paths: &[
                    (b'a', &[(4, 1), (2, 2), (1, 2)]),
                    (b'b', &[]),
                    (b'c', &[(6, 1), (3, 1), (1, 2)]),
                ],
            },
        ],
    ),
    (
        b"abcd",
        b"a",
        &[
            BEFORE,
            Epoch {
                epoch: 1,
                members: 4,
                leaves: [4, 5, 6, 7],
                made: [1, 1, 1, 1, 1, 1, 1, 0],
                wraps: &[],
                paths: &[],
            },
            Epoch {
                epoch: 2,
                members: 3,
                leaves: [0, 5, 6, 7],
                made: [2, 2, 1, 2, 1, 1, 1, 0],
                wraps: &[
                    [(5, 1), (2, 2)],
                    [(2, 2), (1, 2)],
                    [(3, 1), (1, 2)],
                    [(1, 2), (0, 2)],
                ],
                paths: &[],
            },
        ],
    ),
    (
        b"abc",
        b"",
        &[
            BEFORE,
            THREE,
            Epoch {
                epoch: 2,
                members: 3,
                leaves: [4, 5, 6, 0],
                made: [2, 1, 1, 1, 1, 1, 0, 0],
                wraps: &[[(2, 1), (1, 2)], [(3, 1), (1, 2)], [(1, 2), (0, 2)]],
                paths: &[],
            },
        ],
    ),
];

#[test]
fn histories_are_as_key_servers_show_them(rt: HostRuntime) {
    let mut holds = true;
    for (joins, leaves, epochs) in &HISTORIES {
        holds &= has_epochs(rt.alloc(), joins, leaves, epochs);
    }
    assert!(rt; holds);
}

/// Whether this is what a history says of its epochs in which some come in with the first batch, and others go out with the second.
fn has_epochs(alloc: Global, joins: &[u8], leaves: &[u8], epochs: &[Epoch]) -> bool {
    let mut history = History::new(alloc, 2);
    let mut holds = (history.depth() == 2) & (history.leaves() == 4);
    holds &= is_added(alloc, &mut history, true, joins);
    holds &= is_added(alloc, &mut history, false, leaves);
    for epoch in epochs {
        holds &= is_epoch(alloc, &history, epoch);
    }
    drop(history);
    holds
}

/// Adds a batch in which some come in, or go out, of whom there are at most 32 and each is called by one letter.
fn is_added(alloc: Global, history: &mut History, come_in: bool, letters: &[u8]) -> bool {
    let mut batch = Batch::new();
    for letter in letters {
        let member = named(*letter);
        if batch.changes().len() < MOST_CHANGES {
            batch.push(if come_in {
                Change::In { member }
            } else {
                Change::Out { member }
            });
        }
    }
    history.epoch() < u32::MAX && history.fits(&batch) && history.add(alloc, batch).is_ok()
}

/// Whether this is what a history says of an epoch.
fn is_epoch(alloc: Global, history: &History, want: &Epoch) -> bool {
    let epoch = want.epoch;
    if epoch > history.epoch() {
        return false;
    }
    let mut holds = (history.members(epoch) == want.members)
        & has_leaves(history, epoch, &want.leaves)
        & is_made(history, epoch, &want.made);
    for (letter, keys) in want.paths {
        holds &= is_path(alloc, history, epoch, &named(*letter), keys);
    }
    match history.wraps(alloc, epoch) {
        Ok(wraps) => {
            holds &= wraps.len() == want.wraps.len();
            for (wrap, [by, gives]) in wraps.as_slice().iter().zip(want.wraps) {
                holds &= (wrap.by == key(by.0, by.1)) & (wrap.gives == key(gives.0, gives.1));
            }
            holds
        }
        Err(_) => false,
    }
}

fn has_leaves(history: &History, epoch: u32, want: &[u16; 4]) -> bool
    requires { epoch ≤ length history.now.batches }
{
    let mut same = true;
    for (letter, leaf) in b"abcd".iter().zip(want) {
        same &= history.place(epoch, &named(*letter)) == LkhId::new(*leaf);
    }
    same
}

fn is_made(history: &History, epoch: u32, want: &[u32; 8]) -> bool
    requires { epoch ≤ length history.now.batches }
{
    let mut same = true;
    for (number, made) in (1..9).zip(want) {
        let due = if *made == 0 { None } else { Some(*made) };
        match LkhId::new(number) {
            Some(id) => same &= history.last(epoch, id) == due,
            None => same = false,
        }
    }
    same
}

/// Whether these are the keys of a member at an epoch.
fn is_path(alloc: Global, history: &History, epoch: u32, member: &MemberName, keys: &[Key]) -> bool
    requires { epoch ≤ length history.now.batches }
{
    let mut holds = history.is_member(epoch, member) != keys.is_empty();
    match history.path(alloc, epoch, member) {
        Ok(path) => {
            holds &= path.len() == keys.len();
            for (name, (number, made)) in path.as_slice().iter().zip(keys) {
                holds &= *name == key(*number, *made);
            }
            holds
        }
        Err(_) => false,
    }
}
