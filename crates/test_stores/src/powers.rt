//! Stores on files in memory: each call that fails, and then each kind of a loss of power.
use crate::records::push_three;
use crate::stores::{head_of, look, on_new};
use crate::unseen::{UnseenDisk, after_crash};
use group_terms::{List, Octets};
use std::alloc::Global;
use tree_store::Head;

/// Opening the file, taking its lock and syncing its folder.
const STEPS: u64 = 3;

/// Making the store of a group takes twelve calls, and storing three batches six, five and five: a write for each hundred octets of a record, a sync, a
/// write and a sync.
const CALLS: u64 = 28;

/// Opening it and reading three batches: a sync, the beginning, and all that comes after it, in pieces of a hundred octets up to one that finds the end.
const OPENING: u64 = 9;

/// Eight kinds of crash, with the file in its folder or not where that was not synced.
const CHOICES: u64 = 16;

#[test]
fn stores_keep_what_was_acknowledged(rt: HostRuntime) {
    assert!(rt; all_hold(rt.alloc()));
}

fn all_hold(alloc: Global) -> bool {
    let mut records = List::new(alloc);
    let are_made = push_three(alloc, &mut records);
    let all_hold = all_hold_of(alloc, &head_of(2), records.as_slice());
    drop(records);
    are_made & all_hold
}

/// With each loss of power, and with none; a failure of the last call is seen, and none of a later one.
fn all_hold_of(alloc: Global, head: &Head, records: &[Octets]) -> bool {
    let mut holds = (are_stored(alloc, head, records, CALLS) == Some(false))
        & (are_stored(alloc, head, records, CALLS + 1) == Some(true))
        & (are_found(alloc, head, records, CALLS + OPENING) == Some(false))
        & (are_found(alloc, head, records, CALLS + OPENING + 1) == Some(true));
    for choice in 0..CHOICES {
        holds &= are_kept(alloc, head, records, choice) & are_opened(alloc, head, records, choice);
    }
    holds
}

/// At each call that fails: none, one of those that open, lock or list the file, one of the others, or such a one and the second after it, which
/// may be one that opens the store again.
fn are_kept(alloc: Global, head: &Head, records: &[Octets], choice: u64) -> bool {
    let mut holds = is_kept(alloc, head, records, &[], &[], choice) == Some(true);
    for step in 1..=STEPS {
        holds &= is_kept(alloc, head, records, &[step], &[], choice) == Some(true);
    }
    for call in 1..=CALLS {
        holds &= is_kept(alloc, head, records, &[], &[call], choice) == Some(true);
        holds &= is_kept(alloc, head, records, &[], &[call, call + 2], choice) == Some(true);
    }
    holds
}

/// Whether a loss of power leaves the batches that were acknowledged, and at most one more; or no group, or one without a batch, where none
/// was made.
fn is_kept(
    alloc: Global,
    head: &Head,
    records: &[Octets],
    steps: &[u64],
    calls: &[u64],
    choice: u64,
) -> Option<bool> {
    let disk = UnseenDisk::planned(alloc, 100, false, steps, calls)?;
    let (stored, disk) = on_new(alloc, disk, head, records, true);
    let (left, disk) = look(alloc, after_crash(alloc, disk, choice)?, head, records);
    drop(disk);
    Some(match (stored, left) {
        (None, left) => left.unwrap_or(0) == 0,
        (Some(stored), Some(left)) => {
            stored <= records.len() && (left == stored || left == stored + 1)
        }
        (Some(_), None) => false,
    })
}

/// Whether all batches are stored where this call fails.
fn are_stored(alloc: Global, head: &Head, records: &[Octets], call: u64) -> Option<bool> {
    let disk = UnseenDisk::planned(alloc, 100, false, &[], &[call])?;
    let (stored, disk) = on_new(alloc, disk, head, records, false);
    drop(disk);
    Some(stored == Some(records.len()))
}

/// Whether all batches are found by another disk of the file where this call fails.
fn are_found(alloc: Global, head: &Head, records: &[Octets], call: u64) -> Option<bool> {
    let disk = UnseenDisk::planned(alloc, 100, false, &[], &[call])?;
    let (_, disk) = on_new(alloc, disk, head, records, false);
    let (found, disk) = look(alloc, disk.used_again()?, head, records);
    drop(disk);
    Some(found == Some(records.len()))
}

/// At each call of an opening that fails.
fn are_opened(alloc: Global, head: &Head, records: &[Octets], choice: u64) -> bool {
    let mut holds = true;
    for step in STEPS + 1..=2 * STEPS {
        holds &= keeps_all(alloc, head, records, step, 0, choice) == Some(true);
    }
    for call in CALLS + 1..=CALLS + OPENING {
        holds &= keeps_all(alloc, head, records, 0, call, choice) == Some(true);
    }
    holds
}

/// Whether all batches are left by a loss of power of a file that is opened once more by another disk, of which this step or call fails.
fn keeps_all(
    alloc: Global,
    head: &Head,
    records: &[Octets],
    step: u64,
    call: u64,
    choice: u64,
) -> Option<bool> {
    let all = Some(records.len());
    let disk = UnseenDisk::planned(alloc, 100, false, &[step], &[call])?;
    let (stored, disk) = on_new(alloc, disk, head, records, false);
    let (_, disk) = look(alloc, disk.used_again()?, head, records);
    let (left, disk) = look(alloc, after_crash(alloc, disk, choice)?, head, records);
    drop(disk);
    Some((stored == all) & (left == all))
}
