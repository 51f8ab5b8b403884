//! The tree that a batch leaves, and what the batch encrypts.
ghost use Rattle.std.specs.Prelude.{◌≡◌, ◌+◌, ◌*◌, ◌^◌, ◌<◌, ◌≤◌, [], ◌∷◌, ◌++◌, length, replicate, map, slice_index_or, IfOk, OnOk, None, false};
ghost use Rattle.std.specs.List.{range_with_len};
ghost use Rattle.group_terms.specs.Positions.{some_leaf_below};
ghost use Rattle.group_model.specs.Places.{no_holders, holders_after};
ghost use Rattle.group_model.specs.Fresh.{changed_leaves};
ghost use Rattle.group_model.specs.Private.Trees.{is_made_in, child_wrap, child_wraps, wraps_down};
ghost use Rattle.group_model.specs.LastChanges.{renewed_at, renewed};

use crate::{Change, KeyName, List, LkhId, NoMemory, Wrap};
use group_terms::marks_above;
use std::alloc::Global;
use tree_leaves::holders::{self, Holder};
use tree_leaves::node;

/// Who has each leaf, and the last change of each position.
#[derive(Drop)]
pub(crate) struct Tree {
    pub(crate) holders: List<Holder>,
    pub(crate) made: List<Option<u32>>,
}

impl Tree {
    ghost use Rattle.group_model.specs.Private.Trees.{HasShape, wraps_between};

    /// The tree before the first batch.
    pub(crate) fn empty(alloc: Global, depth: u8) -> Result<Self, NoMemory>
        requires { depth ≤ 9 }
        ensures holders { IfOk result (λ tree. tree.holders ≡ no_holders depth) }
        ensures made { IfOk result (λ tree. tree.made ≡ replicate (2 ^ (depth + 1)) None) }
    {
        let holders = holders::nobody(alloc, depth)?;
        let made = List::from_vec(vec![in alloc; None; 2 << depth]?);
        Ok(Tree { holders, made })
    }

    /// The tree after a batch, which makes `epoch`.
    pub(crate) fn after(
        &self,
        alloc: Global,
        depth: u8,
        batch: &[Change],
        epoch: u32,
    ) -> Result<Self, NoMemory>
        requires not_deep { depth ≤ 9 }
        requires shape { HasShape depth self.now }
        ensures holders { IfOk result (λ tree. tree.holders ≡ holders_after self.now.holders batch.now) }
        ensures made { IfOk result (λ tree. tree.made ≡ renewed epoch self.now.made
            (map (some_leaf_below depth (changed_leaves self.now.holders tree.holders)) (range_with_len 0 (2 ^ (depth + 1))))) }
        ensures shape { IfOk result (λ tree. HasShape depth tree) }
    {
        let holders = holders::after(alloc, self.holders.as_slice(), batch)?;
        let changed = holders::changed(alloc, self.holders.as_slice(), holders.as_slice())?;
        let marks = marks_above(alloc, depth, changed.as_slice())?;
        let made = renew(alloc, self.made.as_slice(), marks.as_slice(), epoch)?;
        Ok(Tree { holders, made })
    }

    /// The encryptions of the batch that made this tree of the one before it: the new keys of inner positions by falling
    /// position, each under its children's keys by rising position, and last the traffic key; none where nobody stayed.
    pub(crate) fn wraps(
        &self,
        alloc: Global,
        depth: u8,
        before: &Tree,
        epoch: u32,
    ) -> Result<List<Wrap>, NoMemory>
        requires not_deep { depth ≤ 9 }
        requires shape { HasShape depth self.now }
        requires before { HasShape depth before.now }
        ensures { IfOk result (λ wraps. wraps ≡ wraps_between depth before.now.holders self.now epoch) }
    {
        let kept = holders::held_on(alloc, before.holders.as_slice(), self.holders.as_slice())?;
        let mut wraps = List::new(alloc);
        if holders::any(kept.as_slice()) {
            let marks = marks_above(alloc, depth, kept.as_slice())?;
            let inner = self.holders.len() - 1;
            wrap_all(
                inner,
                epoch,
                self.made.as_slice(),
                marks.as_slice(),
                &mut wraps,
            )?;
            wraps.push(Wrap {
                by: node(1, epoch),
                gives: KeyName::Traffic { made: epoch },
            })?;
        }
        Ok(wraps)
    }

    /// The last change of a position.
    pub(crate) fn last(&self, id: LkhId) -> Option<u32>
        ensures { result ≡ slice_index_or self.now.made id None }
    {
        match self.made.as_slice().get(usize::from(id.number())) {
            Some(made) => *made,
            None => None,
        }
    }
}

fn renew(
    alloc: Global,
    made: &[Option<u32>],
    marks: &[bool],
    epoch: u32,
) -> Result<List<Option<u32>>, NoMemory>
    requires { length marks.now ≡ length made.now }
    ensures { IfOk result (λ list. list ≡ renewed epoch made.now marks.now) }
{
    let mut list = List::with_room(alloc, made.len())?;
    for v in 0..made.len() {
        list.push(renew_at(v, made, marks, epoch))?;
    }
    Ok(list)
}

fn renew_at(v: usize, made: &[Option<u32>], marks: &[bool], epoch: u32) -> Option<u32>
    requires made { v < length made.now }
    requires marks { v < length marks.now }
    ensures { result ≡ renewed_at epoch made.now marks.now v }
{
    if v == 1 || marks[v] {
        Some(epoch)
    } else {
        made[v]
    }
}

/// Appends the encryptions of the new keys of the first `inner` positions, by falling position and then rising position of the wrapping key.
fn wrap_all(
    inner: usize,
    epoch: u32,
    made: &[Option<u32>],
    marks: &[bool],
    wraps: &mut List<Wrap>,
) -> Result<(), NoMemory>
    requires inner { 2 * inner + 1 < length made.now }
    requires marks { length marks.now ≡ length made.now }
    requires small { length made.now ≤ 65536 }
    ensures { OnOk result (wraps.new ≡ wraps.old ++ wraps_down epoch made.now marks.now inner) }
{
    for v in (1..inner + 1).rev() {
        if is_made(made[v], epoch) {
            wrap_children(v, epoch, made, marks, wraps)?;
        }
    }
    Ok(())
}

fn is_made(made: Option<u32>, epoch: u32) -> bool
    ensures { result ≡ is_made_in epoch made }
{
    match made {
        Some(made) => made == epoch,
        None => false,
    }
}

fn wrap_children(
    v: usize,
    epoch: u32,
    made: &[Option<u32>],
    marks: &[bool],
    wraps: &mut List<Wrap>,
) -> Result<(), NoMemory>
    requires inner { 2 * v + 1 < length made.now }
    requires positive { 0 < v }
    requires marks { length marks.now ≡ length made.now }
    requires small { length made.now ≤ 65536 }
    ensures { OnOk result (wraps.new ≡ wraps.old ++ child_wraps epoch made.now marks.now v) }
{
    wrap_under(2 * v, v, epoch, made, marks, wraps)?;
    wrap_under(2 * v + 1, v, epoch, made, marks, wraps)?;
    Ok(())
}

fn wrap_under(
    child: usize,
    v: usize,
    epoch: u32,
    made: &[Option<u32>],
    marks: &[bool],
    wraps: &mut List<Wrap>,
) -> Result<(), NoMemory>
    requires child { child < length made.now }
    requires above { v < child }
    requires positive { 0 < v }
    requires marks { length marks.now ≡ length made.now }
    requires small { length made.now ≤ 65536 }
    ensures { OnOk result (wraps.new ≡ wraps.old ++ child_wrap epoch made.now marks.now v child) }
{
    if marks[child] {
        wraps.push(Wrap {
            by: node(child, made[child].unwrap_or(0)),
            gives: node(v, epoch),
        })?;
    }
    Ok(())
}
