//! Key trees and what batches encrypt, beside the list of batches.
ghost use Rattle.std.specs.Prelude.{◌≤◌};
ghost use Rattle.key_tree.specs.Marks.{IsReady};

use crate::lists::{Numbers, some_batch};
use crate::trees::{install, prepared};
use gd_edges::ChaChaDraws;
use group_model::History;
use group_terms::{Batch, Change, LkhId, MOST_CHANGES, NoMemory, Wrap};
use key_tree::{KeyTree, Marked};
use rekey_plan::plan;
use std::alloc::Global;

/// Batches of a run.
const BATCHES: u64 = 40;

/// Runs of each depth: 2,160 batches in all.
const RUNS: u64 = 6;

#[test]
fn trees_are_those_of_the_list(rt: HostRuntime) {
    assert!(rt; are_those_of_the_list(rt.alloc()));
}

fn are_those_of_the_list(alloc: Global) -> bool {
    let mut holds = true;
    for depth in 1..=9 {
        for seed in 0..RUNS {
            holds &= is_that_of_the_list(alloc, depth, seed);
        }
    }
    holds
}

/// Whether each batch of a run makes of the tree what the list of all batches says.
fn is_that_of_the_list(alloc: Global, depth: u8, seed: u64) -> bool
    requires shallow { 1 ≤ depth }
    requires not_deep { depth ≤ 9 }
{
    match KeyTree::new(alloc, depth) {
        Ok(mut tree) => goes_beside(alloc, &mut tree, seed),
        Err(NoMemory) => false,
    }
}

/// The same of a tree in which nobody is yet.
fn goes_beside(alloc: Global, tree: &mut KeyTree, seed: u64) -> bool {
    let mut history = History::new(alloc, tree.depth());
    let holds = all_are_alike(alloc, tree, &mut history, seed);
    holds & are_last_alike(tree, &history)
}

/// Takes all batches of a run into both.
fn all_are_alike(alloc: Global, tree: &mut KeyTree, history: &mut History, seed: u64) -> bool {
    let mut numbers = Numbers { state: seed };
    let mut draws = ChaChaDraws::new(seed, 1);
    let mut holds = true;
    for _ in 0..BATCHES {
        let batch = some_batch(tree, &mut numbers);
        holds &= next_is_alike(alloc, tree, history, &batch, &mut draws);
    }
    holds
}

/// Takes a batch into both, and says whether they agree on it.
fn next_is_alike(
    alloc: Global,
    tree: &mut KeyTree,
    history: &mut History,
    batch: &Batch,
    draws: &mut ChaChaDraws,
) -> bool {
    match prepared(alloc, tree, batch) {
        Some(marked) => {
            let holds = is_added(alloc, history, batch)
                & is_alike(alloc, tree, &marked, history, batch.changes());
            holds & install(alloc, tree, marked, draws) & has_its_members(tree, history)
        }
        None => false,
    }
}

/// Adds a batch to the list.
fn is_added(alloc: Global, history: &mut History, batch: &Batch) -> bool {
    let again = copied(batch);
    if !history.fits(&again) || history.epoch() >= BATCHES as u32 {
        return false;
    }
    history.add(alloc, again).is_ok()
}

/// Whether the last batch of the list makes of the tree what the list says.
fn is_alike(
    alloc: Global,
    tree: &KeyTree,
    marked: &Marked,
    history: &History,
    changes: &[Change],
) -> bool
    requires { IsReady tree.now marked.now }
{
    has_its_wraps(alloc, tree, marked, history)
        & (marked.epoch() == history.epoch())
        & have_their_leaves(marked, history, changes)
}

fn has_its_wraps(alloc: Global, tree: &KeyTree, marked: &Marked, history: &History) -> bool
    requires { IsReady tree.now marked.now }
{
    match plan(alloc, tree, marked) {
        Ok(wraps) => are_listed(alloc, history, wraps.as_slice()),
        Err(NoMemory) => false,
    }
}

/// Whether these are the encryptions of the last batch of the list.
fn are_listed(alloc: Global, history: &History, wraps: &[Wrap]) -> bool {
    match history.wraps(alloc, history.epoch()) {
        Ok(listed) => listed.as_slice() == wraps,
        Err(NoMemory) => false,
    }
}

fn has_its_members(tree: &KeyTree, history: &History) -> bool {
    tree.members() == history.members(history.epoch())
}

fn copied(batch: &Batch) -> Batch {
    let mut again = Batch::new();
    for change in batch.changes() {
        if again.changes().len() < MOST_CHANGES {
            again.push(*change);
        }
    }
    again
}

/// Whether each joiner has the leaf that the list gives it.
fn have_their_leaves(marked: &Marked, history: &History, changes: &[Change]) -> bool {
    let mut leaves = marked.joined().iter();
    let mut holds = true;
    for change in changes {
        if let Change::In { member } = change {
            holds &= leaves.next().copied() == history.place(history.epoch(), member);
        }
    }
    holds & leaves.next().is_none()
}

/// Whether each position has the same last change in both.
fn are_last_alike(tree: &KeyTree, history: &History) -> bool {
    let mut holds = true;
    for number in 1..=1023 {
        if let Some(id) = LkhId::new(number) {
            holds &= tree.last(id) == history.last(history.epoch(), id);
        }
    }
    holds
}
