//! Finding out what a batch makes of the key tree.
ghost use Rattle.std.specs.Prelude.{◌≡◌, ◌+◌, ◌^◌, ◌≤◌, ◌||◌, ◌==◌, nat_le, length, map, is_none, is_some, None, Some, IfSome, IfNone, IfOk, if◌then◌else◌};
ghost use Rattle.std.specs.List.{filter};
ghost use Rattle.group_model.specs.Indexes.{IsIndexOf};
ghost use Rattle.group_model.specs.Places.{Fits};
ghost use Rattle.key_tree.specs.declared.marks.Renewed.{Renewed};
ghost use Rattle.key_tree.specs.Present.{IsTreeAfter};
ghost use Rattle.key_tree.specs.Marks.{IsMarkedFor, ids_renewed};
ghost use Rattle.key_tree.specs.Private.Outcomes.{IsOutcome, stays_at_root};

use crate::KeyTree;
use crate::levels::all_levels;
use crate::marks::{Marked, Renewed, Seat};
use crate::seating::{Seating, seat_all};
use group_model::NameIndex;
use group_terms::{Batch, Change, LeafMarks, List, LkhId, NoMemory};
use std::alloc::Global;
use tree_leaves::holders::Holder;

impl KeyTree {
    /// What a batch, which has to fit, makes of the tree; `None` exactly where its epoch, or the number of its last push, would be past a limit. It costs
    /// the depth for each change. `NoMemory` if out of memory for it.
    pub fn prepare(
        &self,
        alloc: Global,
        batch: &Batch,
        limit: u32,
    ) -> Result<Option<Marked>, NoMemory>
        requires { Fits self.now.holders batch.now }
        ensures some { IfOk result (λ marked. IfSome marked (IsMarkedFor self.now batch.now limit)) }
        ensures none { IfOk result (λ marked. IfNone marked (IsTreeAfter self.now batch.now limit None)) }
    {
        if self.epoch >= limit {
            return Ok(None);
        }
        let outcome = work_out(
            alloc,
            self.depth,
            self.holders.as_slice(),
            &self.index,
            &self.held,
            &self.free,
            batch.changes(),
        )?;
        let stayed = stays_at_root(outcome.renewed.as_slice());
        let Some(sequence) = number_within(self.sequence, stayed, limit) else {
            return Ok(None);
        };
        Ok(Some(Marked {
            epoch: self.epoch + 1,
            sequence,
            members: outcome.members as u32,
            stayed,
            seats: outcome.seats,
            renewed: outcome.renewed,
            drawn: outcome.drawn,
            joined: outcome.joined,
        }))
    }
}

/// What a batch makes of the tree, but for its epoch and the number of its last push.
#[derive(Drop)]
struct Outcome {
    members: usize,
    seats: List<Seat>,
    renewed: List<Renewed>,
    drawn: List<LkhId>,
    joined: List<LkhId>,
}

/// What a batch, which has to fit, makes of the tree. `held` are the leaves that somebody has before it, and `free` the others.
fn work_out(
    alloc: Global,
    depth: u8,
    holders: &[Holder],
    index: &NameIndex,
    held: &LeafMarks,
    free: &LeafMarks,
    batch: &[Change],
) -> Result<Outcome, NoMemory>
    requires not_deep { depth ≤ 9 }
    requires leaves { length holders.now ≡ 2 ^ depth }
    requires index { IsIndexOf holders.now index.now }
    requires held { held.now ≡ record { depth = depth; leaves = map is_some holders.now } }
    requires free { free.now ≡ record { depth = depth; leaves = map is_none holders.now } }
    requires fits { Fits holders.now batch.now }
    ensures { IfOk result (IsOutcome depth holders.now batch.now) }
{
    let Seating {
        seats,
        joined,
        leaves,
        members,
    } = seat_all(alloc, depth, holders, index, free, held.marked(), batch)?;
    let renewed = all_levels(depth, held, leaves)?;
    let drawn = drawn(alloc, renewed.as_slice())?;
    Ok(Outcome {
        members,
        seats,
        renewed,
        drawn,
        joined,
    })
}

/// Of the renewed positions those for whose keys values are drawn.
fn drawn(alloc: Global, renewed: &[Renewed]) -> Result<List<LkhId>, NoMemory>
    ensures { IfOk result (λ ids. ids ≡ ids_renewed (filter (λ (found : Renewed). found.id == 1 || found.held) renewed.now)) }
{
    let mut ids = List::with_room(alloc, renewed.len())?;
    for found in renewed {
        if found.id.number() == 1 || found.held {
            ids.push(found.id)?;
        }
    }
    Ok(ids)
}

/// Whether somebody stayed over the batch of these positions.
fn stays_at_root(renewed: &[Renewed]) -> bool
    ensures { result ≡ stays_at_root renewed.now }
{
    match renewed.first() {
        Some(root) => root.stayed,
        None => false,
    }
}

/// The number of the last push after a batch over which somebody stayed or nobody did, where it is not past a limit.
fn number_within(sequence: u32, stayed: bool, limit: u32) -> Option<u32>
    ensures { result ≡ (if nat_le (sequence + (if stayed then 2 else 0)) limit
        then Some (sequence + (if stayed then 2 else 0)) else None) }
{
    let number = if stayed {
        sequence.checked_add(2)?
    } else {
        sequence
    };
    if number > limit {
        return None;
    }
    Some(number)
}
