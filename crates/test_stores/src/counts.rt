//! For how many positions a batch draws values, and how many encryptions between positions it has.
ghost use Rattle.std.specs.Prelude.{◌≤◌};
ghost use Rattle.key_tree.specs.Marks.{IsReady};

use crate::lists::name;
use crate::trees::{install, prepared};
use gd_edges::ChaChaDraws;
use group_terms::{Batch, Change, KeyName, MOST_CHANGES, NoMemory, Wrap};
use key_tree::{KeyTree, Marked};
use rekey_plan::plan;
use std::alloc::Global;

/// A tree of this depth with so many members, of whom `leavers` go out, `apart` places from one to the next; and the counts of that batch.
#[derive(Drop)]
struct Case {
    depth: u8,
    members: u64,
    leavers: u64,
    apart: u64,
    drawn: usize,
    wraps: usize,
}

/// Each 16th member of a full tree goes out.
const EACH_16TH: Case = Case {
    depth: 9,
    members: 512,
    leavers: 32,
    apart: 16,
    drawn: 159,
    wraps: 286,
};

/// Nobody goes out, and nobody comes in.
const NOBODY: Case = Case {
    depth: 2,
    members: 3,
    leavers: 0,
    apart: 1,
    drawn: 1,
    wraps: 2,
};

#[test]
fn batches_have_their_counts(rt: HostRuntime) {
    assert!(rt; are_counted(rt.alloc()));
}

fn are_counted(alloc: Global) -> bool {
    let mut holds = true;
    for depth in 1..=9 {
        holds &= is_counted(alloc, &removal(depth));
    }
    holds & is_counted(alloc, &EACH_16TH) & is_counted(alloc, &NOBODY)
}

/// One member goes out of a full tree. Each position above its leaf has a new key, encrypted under both children's keys, the lowest under the other leaf's alone.
fn removal(depth: u8) -> Case
    requires positive { 1 ≤ depth }
    requires not_deep { depth ≤ 9 }
{
    Case {
        depth,
        members: 1 << depth,
        leavers: 1,
        apart: 1,
        drawn: usize::from(depth),
        wraps: 2 * usize::from(depth) - 1,
    }
}

fn is_counted(alloc: Global, case: &Case) -> bool {
    if case.depth < 1 || case.depth > 9 {
        return false;
    }
    match KeyTree::new(alloc, case.depth) {
        Ok(mut tree) => has_counts_once_full(alloc, &mut tree, case),
        Err(NoMemory) => false,
    }
}

fn has_counts_once_full(alloc: Global, tree: &mut KeyTree, case: &Case) -> bool {
    let is_full = fill(alloc, tree, case.members);
    is_full & has_counts(alloc, tree, case)
}

/// Lets so many members in, batch after batch.
fn fill(alloc: Global, tree: &mut KeyTree, members: u64) -> bool {
    let mut draws = ChaChaDraws::new(1, 0);
    let mut batch = Batch::new();
    let mut holds = true;
    for number in 0..members {
        if batch.changes().len() == MOST_CHANGES {
            holds &= take_in(alloc, tree, &batch, &mut draws);
            batch = Batch::new();
        }
        batch.push(Change::In {
            member: name(number),
        });
    }
    holds & take_in(alloc, tree, &batch, &mut draws)
}

fn take_in(alloc: Global, tree: &mut KeyTree, batch: &Batch, draws: &mut ChaChaDraws) -> bool {
    match prepared(alloc, tree, batch) {
        Some(marked) => install(alloc, tree, marked, draws),
        None => false,
    }
}

/// The batch with which members go out.
fn leavers(case: &Case) -> Batch {
    let mut batch = Batch::new();
    for number in 0..case.leavers {
        if batch.changes().len() < MOST_CHANGES {
            batch.push(Change::Out {
                member: name(number.saturating_mul(case.apart)),
            });
        }
    }
    batch
}

/// Whether the batch of a case has its counts.
fn has_counts(alloc: Global, tree: &KeyTree, case: &Case) -> bool {
    match prepared(alloc, tree, &leavers(case)) {
        Some(marked) => {
            (marked.drawn().len() == case.drawn)
                & (count_wraps(alloc, tree, &marked) == Some(case.wraps))
        }
        None => false,
    }
}

/// How many encryptions between positions a batch has.
fn count_wraps(alloc: Global, tree: &KeyTree, marked: &Marked) -> Option<usize>
    requires { IsReady tree.now marked.now }
{
    match plan(alloc, tree, marked) {
        Ok(wraps) => Some(between(wraps.as_slice())),
        Err(NoMemory) => None,
    }
}

fn between(wraps: &[Wrap]) -> usize {
    wraps
        .iter()
        .filter(|wrap| matches!(wrap.gives, KeyName::Node { .. }))
        .count()
}
