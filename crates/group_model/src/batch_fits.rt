//! Whether a batch can be the next one.
ghost use Rattle.std.specs.Prelude.{◌≡◌, ◌+◌, ◌≤◌, ◌↔◌, length, map, true, IsTrue};
ghost use Rattle.std.specs.List.{list_all};
ghost use Rattle.group_terms.specs.Changes.{member_of, leavers, joiners};
ghost use Rattle.group_model.specs.Places.{Fits, holders_of, member_count, names_once};
ghost use Rattle.group_model.specs.Indexes.{IsIndexOf};
ghost use Rattle.group_model.specs.Private.Suits.{suits};

use crate::indexes::NameIndex;
use crate::{Batch, Change, History};
use group_terms::is_named;
use tree_leaves::holders::{self, Holder};

impl History {
    /// Whether a batch fits, as `add` requires: each `Out` names a member, each `In` somebody who is none, no name comes
    /// twice, and the tree has a leaf for each.
    pub fn fits(&self, batch: &Batch) -> bool
        ensures { IsTrue result ↔ Fits (holders_of self.now.depth self.now.batches) batch.now }
    {
        match self.holders() {
            Some(holders) => fits(
                holders,
                &NameIndex::none(),
                holders::count_members(holders),
                batch,
            ),
            None => fits_first(self.leaves(), batch),
        }
    }
}

/// Whether a batch fits a tree with these leaves, of which this number are taken.
pub fn fits(holders: &[Holder], index: &NameIndex, members: usize, batch: &Batch) -> bool
    requires index { IsIndexOf holders.now index.now }
    requires members { members ≡ member_count holders.now }
    requires within { members ≤ length holders.now }
    ensures { IsTrue result ↔ Fits holders.now batch.now }
{
    let changes = batch.changes();
    all_suit(holders, index, changes)
        && are_named_once(changes)
        && have_room(holders, members, batch)
}

/// Whether a batch can be the first of a tree: nobody goes out, no name comes twice, and the tree has a leaf for each.
fn fits_first(leaves: usize, batch: &Batch) -> bool
    ensures { IsTrue result
        ↔ (length (leavers batch.now) ≡ 0) × (names_once (map member_of batch.now) ≡ true) × (length batch.now ≤ leaves) }
{
    let changes = batch.changes();
    batch.leaves() == 0 && are_named_once(changes) && changes.len() <= leaves
}

/// Whether each `Out` names a member, and each `In` somebody who is none.
fn all_suit(holders: &[Holder], index: &NameIndex, changes: &[Change]) -> bool
    requires { IsIndexOf holders.now index.now }
    ensures { result ≡ list_all (suits holders.now) changes.now }
{
    changes.iter().all(|change| suits(holders, index, change))
}

fn suits(holders: &[Holder], index: &NameIndex, change: &Change) -> bool
    requires { IsIndexOf holders.now index.now }
    ensures { result ≡ suits holders.now change.now }
{
    match change {
        Change::Out { member } => index.has(holders, member),
        Change::In { member } => !index.has(holders, member),
    }
}

/// Whether those who stay and those who come are no more than there are leaves.
fn have_room(holders: &[Holder], members: usize, batch: &Batch) -> bool
    requires { members ≤ length holders.now }
    ensures { IsTrue result
        ↔ (members + length (joiners batch.now) ≤ length holders.now + length (leavers batch.now)) }
{
    members + batch.joins() <= holders.len() + batch.leaves()
}

fn are_named_once(changes: &[Change]) -> bool
    ensures { result ≡ names_once (map member_of changes.now) }
{
    for (i, change) in changes.iter().enumerate() {
        if is_named(&changes[i + 1..], change.member()) {
            return false;
        }
    }
    true
}
