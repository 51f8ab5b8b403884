//! A tree's batches as a plain list, with what they make of the tree.
ghost use Rattle.std.specs.Prelude.{◌≡◌, ◌+◌, ◌-◌, ◌^◌, ◌≤◌, ◌<◌, [], ◌∷◌, ◌++◌, length, slice_index_or, MatchOption, IfOk, OnOk, OnErr};
ghost use Rattle.group_model.specs.Places.{Fits, IsValid, holders_of, holders_at, place_in, is_member, member_count};
ghost use Rattle.group_model.specs.Fresh.{last_change};
ghost use Rattle.group_model.specs.Wraps.{wraps_at};
ghost use Rattle.std.specs.List.{zip};
ghost use Rattle.group_model.specs.Private.Handovers.{all_handed_over, handovers_at};
ghost use Rattle.group_model.specs.Private.Trees.{StandsAt, HasShape};

use crate::handovers::{self, Handover};
use crate::trees::Tree;
use crate::{Batch, Change, List, LkhId, MemberName, NoMemory, Wrap};
use std::alloc::Global;
use std::marker::Model;
use tree_leaves::holders::{self, Holder};

/// The batches of a group, each of which made an epoch, with a tree of one depth.
///
/// An epoch is the number of batches up to it; at epoch 0 nobody is a member. A batch takes memory for its changes, and not for the tree.
#[derive(Drop)]
pub struct History {
    depth: u8,
    rows: List<Row>,
    /// Who has which leaf now; `None` before the first batch.
    holders: Option<List<Holder>>,
}

/// A batch, the leaves that changed hands, and how many members there were then.
#[derive(Drop)]
struct Row {
    changes: List<Change>,
    handovers: List<Handover>,
    members: u32,
}

impl Model for History {
    ghost use Rattle.group_model.specs.Histories.{Batches};

    ghost Value = { Batches };

    ghost use Rattle.group_model.specs.Private.Rows.{AreRows, batches_of};

    ghost view = { λ history. record { depth = history.depth; batches = batches_of history.rows } };

    ghost invariant = { λ history. AreRows history.depth history.rows history.holders };
}

impl Row {
    /// A batch that makes the holders after it of those before it.
    fn new(
        alloc: Global,
        before: &[Holder],
        after: &[Holder],
        batch: &[Change],
    ) -> Result<Self, NoMemory>
        requires same { length before.now ≡ length after.now }
        requires some { 0 < length after.now }
        requires few { length after.now ≤ 512 }
        ensures changes { IfOk result (λ row. row.changes ≡ batch.now) }
        ensures handovers { IfOk result (λ row. row.handovers ≡ all_handed_over (length after.now) (zip before.now after.now)) }
        ensures members { IfOk result (λ row. row.members ≡ member_count after.now) }
    {
        let changes = List::copy_of(alloc, batch)?;
        let handovers = handovers::handovers(alloc, before, after)?;
        let members = holders::count_members(after) as u32;
        Ok(Row {
            changes,
            handovers,
            members,
        })
    }
}

impl History {
    /// No batch yet. The depth is from 1 to 9.
    pub fn new(alloc: Global, depth: u8) -> Self
        requires shallow { 1 ≤ depth }
        requires not_deep { depth ≤ 9 }
        ensures depth { result.depth ≡ depth }
        ensures batches { result.batches ≡ [] }
    {
        History {
            depth,
            rows: List::new(alloc),
            holders: None,
        }
    }

    /// How deep the tree is.
    pub fn depth(&self) -> u8
        ensures depth { result ≡ self.now.depth }
        ensures not_deep { result ≤ 9 }
    {
        self.depth
    }

    /// How many leaves the tree has.
    pub fn leaves(&self) -> usize
        ensures leaves { result ≡ 2 ^ self.now.depth }
        ensures few { result ≤ 512 }
    {
        1 << self.depth
    }

    /// The present epoch: the number of batches.
    pub fn epoch(&self) -> u32
        ensures { result ≡ length self.now.batches }
    {
        self.rows.len() as u32
    }

    /// Adds a batch, which has to fit: each `Out` names a member, each `In` somebody who is none, no name comes twice, and
    /// the tree has a leaf for each.
    pub fn add(&mut self, alloc: Global, batch: Batch) -> Result<(), NoMemory>
        requires room { length self.old.batches < 4294967295 }
        requires fits { Fits (holders_of self.old.depth self.old.batches) batch }
        ensures depth { self.new.depth ≡ self.old.depth }
        ensures ok { OnOk result (self.new.batches ≡ self.old.batches ++ batch ∷ []) }
        ensures err { OnErr result (self.new.batches ≡ self.old.batches) }
    {
        let before = self.present(alloc)?;
        let after = holders::after(alloc, before.as_slice(), batch.changes())?;
        let row = Row::new(alloc, before.as_slice(), after.as_slice(), batch.changes())?;
        self.rows.push(row)?;
        self.holders = Some(after);
        Ok(())
    }

    /// The leaf that a member has at an epoch; `None` where it has none then, and only there (RFC 2627
    /// section 5.4).
    pub fn place(&self, epoch: u32, member: &MemberName) -> Option<LkhId>
        requires { epoch ≤ length self.now.batches }
        ensures { result ≡ place_in self.now.depth (holders_at self.now.depth self.now.batches epoch) member.now }
    {
        for index in (0..epoch).rev() {
            let handovers = self.handovers(index);
            if let Some(leaf) = handovers::taken_by(handovers, member) {
                return Some(leaf);
            }
            if handovers::was_of(handovers, member) {
                return None;
            }
        }
        None
    }

    /// Whether somebody of this name is a member at an epoch.
    pub fn is_member(&self, epoch: u32, member: &MemberName) -> bool
        requires { epoch ≤ length self.now.batches }
        ensures { result ≡ is_member (holders_at self.now.depth self.now.batches epoch) member.now }
    {
        self.place(epoch, member).is_some()
    }

    /// How many members there are at an epoch.
    pub fn members(&self, epoch: u32) -> u32
        requires { epoch ≤ length self.now.batches }
        ensures { result ≡ member_count (holders_at self.now.depth self.now.batches epoch) }
    {
        match epoch.checked_sub(1) {
            Some(index) => self.rows.as_slice()[index as usize].members,
            None => 0,
        }
    }

    /// The last epoch up to this one at which a position was given a new key; `None` where there was no such epoch, and only then.
    pub fn last(&self, epoch: u32, id: LkhId) -> Option<u32>
        requires { epoch ≤ length self.now.batches }
        ensures { result ≡ last_change self.now.depth self.now.batches epoch id }
    {
        for index in (0..epoch).rev() {
            if handovers::renews(self.depth(), id, self.handovers(index)) {
                return Some(index + 1);
            }
        }
        None
    }

    /// The encryptions of an epoch, by key names: the new keys of inner positions by falling position, each under its
    /// children's keys by rising position, and last the traffic key; none where nobody stayed. It makes the trees of all
    /// epochs up to this one again.
    pub fn wraps(&self, alloc: Global, epoch: u32) -> Result<List<Wrap>, NoMemory>
        requires { epoch ≤ length self.now.batches }
        ensures { IfOk result (λ wraps. wraps ≡ wraps_at self.now.depth self.now.batches epoch) }
    {
        let Some(index) = epoch.checked_sub(1) else {
            return Ok(List::new(alloc));
        };
        let before = self.tree(alloc, index)?;
        let after = self.next_tree(alloc, &before, index)?;
        after.wraps(alloc, self.depth(), &before, epoch)
    }

    /// The tree of an epoch.
    fn tree(&self, alloc: Global, epoch: u32) -> Result<Tree, NoMemory>
        requires { epoch ≤ length self.now.batches }
        ensures stands { IfOk result (λ tree. StandsAt self.now.depth self.now.batches epoch tree) }
        ensures shape { IfOk result (λ tree. HasShape self.now.depth tree) }
    {
        let mut tree = Tree::empty(alloc, self.depth())?;
        for index in 0..epoch {
            tree = self.next_tree(alloc, &tree, index)?;
        }
        Ok(tree)
    }

    /// The tree that a batch leaves, made of the one before it. The first batch has the index 0.
    fn next_tree(&self, alloc: Global, tree: &Tree, index: u32) -> Result<Tree, NoMemory>
        requires index { index < length self.now.batches }
        requires stands { StandsAt self.now.depth self.now.batches index tree.now }
        requires shape { HasShape self.now.depth tree.now }
        ensures stands { IfOk result (λ next. StandsAt self.now.depth self.now.batches (index + 1) next) }
        ensures shape { IfOk result (λ next. HasShape self.now.depth next) }
        ensures valid { IsValid self.now.depth self.now.batches }
    {
        let changes = self.changes(index);
        Ok(tree.after(alloc, self.depth(), changes, index + 1)?)
    }

    /// The changes of a batch.
    fn changes(&self, index: u32) -> &[Change]
        requires { index < length self.now.batches }
        ensures changes { result.now ≡ slice_index_or self.now.batches index result.now }
        ensures few { length self.now.batches < 2 ^ 32 }
        ensures valid { IsValid self.now.depth self.now.batches }
    {
        self.rows.as_slice()[index as usize].changes.as_slice()
    }

    /// The leaves that changed hands with a batch.
    fn handovers(&self, index: u32) -> &[Handover]
        requires { index < length self.now.batches }
        ensures handovers { result.now ≡ handovers_at self.now.depth self.now.batches index }
        ensures valid { IsValid self.now.depth self.now.batches }
    {
        self.rows.as_slice()[index as usize].handovers.as_slice()
    }

    /// A copy of who has which leaf now.
    fn present(&self, alloc: Global) -> Result<List<Holder>, NoMemory>
        ensures { IfOk result (λ holders. holders ≡ holders_of self.now.depth self.now.batches) }
    {
        match self.holders() {
            Some(holders) => Ok(List::copy_of(alloc, holders)?),
            None => Ok(holders::nobody(alloc, self.depth())?),
        }
    }

    /// Who has which leaf now; `None` before the first batch.
    pub(crate) fn holders(&self) -> Option<&[Holder]>
        ensures { MatchOption result (self.now.batches ≡ []) (λ holders. holders.now ≡ holders_of self.now.depth self.now.batches) }
    {
        match &self.holders {
            Some(holders) => Some(holders.as_slice()),
            None => None,
        }
    }
}
