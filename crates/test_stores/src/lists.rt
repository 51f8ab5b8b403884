//! Lists of batches that are stored, opened again and read.
ghost use Rattle.std.specs.Prelude.{◌<◌, ◌≤◌};

use crate::records::push_next;
use crate::stores::{head_of, look, on_new};
use crate::unseen::holding;
use gd_edges::ChaChaDraws;
use group_terms::{Batch, Change, List, MOST_CHANGES, MemberName, NoMemory, Octets};
use key_tree::KeyTree;
use std::alloc::Global;

#[test]
fn lists_are_read_as_they_were_stored(rt: HostRuntime) {
    assert!(rt; are_read_as_stored(rt.alloc()));
}

fn are_read_as_stored(alloc: Global) -> bool {
    let mut holds = true;
    for seed in 0..200 {
        holds &= is_read_as_stored(alloc, seed) == Some(true);
    }
    holds
}

/// Whether the list of a seed is read as it was stored.
fn is_read_as_stored(alloc: Global, seed: u64) -> Option<bool> {
    let depth = 1 + (seed % 9) as u8;
    let mut records = List::new(alloc);
    let are_drawn = push_some(alloc, depth, seed, &mut records);
    let is_kept = is_kept(alloc, depth, records.as_slice());
    drop(records);
    Some(are_drawn & is_kept?)
}

/// Whether a list is read as it was stored.
fn is_kept(alloc: Global, depth: u8, records: &[Octets]) -> Option<bool> {
    let head = head_of(depth);
    let all = Some(records.len());
    let (stored, disk) = on_new(alloc, holding(alloc, &[], b"")?, &head, records, false);
    let (left, disk) = look(alloc, disk, &head, records);
    drop(disk);
    Some((stored == all) & (left == all))
}

/// Appends the records of the batches of a seed for a tree of this depth.
fn push_some(alloc: Global, depth: u8, seed: u64, records: &mut List<Octets>) -> bool
    requires shallow { 1 ≤ depth }
    requires not_deep { depth ≤ 9 }
{
    match KeyTree::new(alloc, depth) {
        Ok(mut tree) => push_batches(alloc, &mut tree, seed, records),
        Err(NoMemory) => false,
    }
}

/// Appends the records of 1 to 40 batches, each of them due after those before it.
fn push_batches(alloc: Global, tree: &mut KeyTree, seed: u64, records: &mut List<Octets>) -> bool {
    let mut numbers = Numbers { state: seed };
    let mut draws = ChaChaDraws::new(seed, 0);
    let mut holds = true;
    for _ in 0..1 + numbers.below(40) {
        let batch = some_batch(tree, &mut numbers);
        holds &= push_next(alloc, tree, &batch, &mut draws, records);
    }
    holds
}

/// A batch that fits after those for which a tree stands, out of twice as many names as it has leaves.
pub(crate) fn some_batch(tree: &KeyTree, numbers: &mut Numbers) -> Batch {
    let names = 2 * tree.leaves() as u64;
    let mut room = tree.leaves().saturating_sub(tree.members() as usize);
    let mut batch = Batch::new();
    for _ in 0..numbers.below(33) {
        let member = name(numbers.below(names.max(1)));
        if batch.changes().len() == MOST_CHANGES || batch.has(&member) {
            continue;
        }
        if tree.is_member(&member) {
            batch.push(Change::Out { member });
            room = room.saturating_add(1);
        } else if room > 0 {
            batch.push(Change::In { member });
            room -= 1;
        }
    }
    batch
}

/// The name `m` with the last four digits of a number.
pub(crate) fn name(number: u64) -> MemberName {
    let text = [
        b'm',
        b'0' + (number / 1000 % 10) as u8,
        b'0' + (number / 100 % 10) as u8,
        b'0' + (number / 10 % 10) as u8,
        b'0' + (number % 10) as u8,
    ];
    MemberName::read(&text).unwrap_or_default()
}

/// A linear congruential generator, with the multiplier and the increment of Knuth's MMIX.
#[derive(Drop)]
pub(crate) struct Numbers {
    pub(crate) state: u64,
}

impl Numbers {
    /// The next number, below a bound.
    fn below(&mut self, bound: u64) -> u64
        requires { 0 < bound }
        ensures { result < bound }
    {
        self.state = self
            .state
            .wrapping_mul(6_364_136_223_846_793_005)
            .wrapping_add(1_442_695_040_888_963_407);
        (self.state >> 33) % bound
    }
}
