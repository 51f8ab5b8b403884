//! Records of batches that are due.
ghost use Rattle.key_tree.specs.Marks.{IsReady};

use crate::stores::Store;
use crate::trees::prepared;
use gd_edges::ChaChaDraws;
use group_terms::{Batch, BatchValues, Change, List, MOST_CHANGES, MemberName, NoMemory, Octets};
use group_values::draw_values;
use key_tree::{KeyTree, Marked};
use std::alloc::Global;

/// Appends the record of a batch with drawn values to a list, where it fits after those for which a tree stands. The tree goes on by it.
pub(crate) fn push_next(
    alloc: Global,
    tree: &mut KeyTree,
    batch: &Batch,
    draws: &mut ChaChaDraws,
    records: &mut List<Octets>,
) -> bool {
    match prepared(alloc, tree, batch) {
        Some(marked) => push_drawn(alloc, tree, batch, marked, draws, records),
        None => false,
    }
}

/// The same of a batch that was prepared.
fn push_drawn(
    alloc: Global,
    tree: &mut KeyTree,
    batch: &Batch,
    marked: Marked,
    draws: &mut ChaChaDraws,
    records: &mut List<Octets>,
) -> bool
    requires { IsReady tree.old marked }
{
    match draw_values(alloc, draws, marked.drawn()) {
        Ok(values) => {
            let is_pushed = push_record(alloc, batch, &marked, &values, records);
            tree.install(marked, &values);
            is_pushed
        }
        Err(NoMemory) => false,
    }
}

fn push_record(
    alloc: Global,
    batch: &Batch,
    marked: &Marked,
    values: &BatchValues,
    records: &mut List<Octets>,
) -> bool {
    match record_of(alloc, batch, marked, values) {
        Some(record) => records.push(record).is_ok(),
        None => false,
    }
}

fn record_of(
    alloc: Global,
    batch: &Batch,
    marked: &Marked,
    values: &BatchValues,
) -> Option<Octets> {
    if values.nodes.len() > 65_535 {
        return None;
    }
    Store::make_record(alloc, batch, marked.epoch(), marked.sequence(), values).ok()
}

/// The batches of a group with a tree of depth 2: a, b and c come in, b goes out, and c does.
static CHANGES: [(bool, &[u8]); 3] = [(true, b"abc"), (false, b"b"), (false, b"c")];

/// Appends the records of these batches.
pub(crate) fn push_three(alloc: Global, records: &mut List<Octets>) -> bool {
    match KeyTree::new(alloc, 2) {
        Ok(mut tree) => push_changes(alloc, &mut tree, records),
        Err(NoMemory) => false,
    }
}

fn push_changes(alloc: Global, tree: &mut KeyTree, records: &mut List<Octets>) -> bool {
    let mut draws = ChaChaDraws::new(1, 0);
    let mut holds = true;
    for (comes_in, letters) in &CHANGES {
        let batch = batch_of(*comes_in, letters);
        holds &= push_next(alloc, tree, &batch, &mut draws, records);
    }
    holds
}

/// The batch with which these come in or go out, each of whom has a letter as the name.
fn batch_of(comes_in: bool, letters: &[u8]) -> Batch {
    let mut batch = Batch::new();
    for letter in letters {
        let member = MemberName::read(&[*letter]).unwrap_or_default();
        if batch.changes().len() < MOST_CHANGES {
            batch.push(if comes_in {
                Change::In { member }
            } else {
                Change::Out { member }
            });
        }
    }
    batch
}
