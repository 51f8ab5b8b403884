//! The key tree at the present epoch.
ghost use Rattle.std.specs.Prelude.{◌≡◌, ◌≢◌, ◌+◌, ◌/◌, ◌^◌, ◌<◌, ◌≤◌, ◌↔◌, [], ◌∷◌, ◌++◌, List, length, map, replicate, slice_get, slice_index_or, IsTrue, IfOk, IfErr, IfSome, None, Some, if◌then◌else◌};
ghost use Rattle.std.specs.List.{All, HoldsAt};
ghost use Rattle.group_terms.specs.declared.changes.Change.{Change};
ghost use Rattle.group_terms.specs.declared.paths.PathKey.{PathKey};
ghost use Rattle.group_terms.specs.declared.values.NodeValue.{NodeValue};
ghost use Rattle.group_values.specs.Values.{KeepsLast, Made, Rises, ids_of, last_value};
ghost use Rattle.group_model.specs.Fresh.{is_fresh, upwards};
ghost use Rattle.group_model.specs.Places.{Fits, place_in, is_member, member_at, member_count};
ghost use Rattle.key_tree.specs.Marks.{IsReady, holders_then, ids_renewed, installed, is_stayed_below, renewal};
ghost use Rattle.key_tree.specs.declared.marks.Renewed.{Renewed};
ghost use Rattle.key_tree.specs.Present.{IsPresentKey, StandsFor};

use crate::marks::{Marked, Renewed};
use group_model::{NameIndex, fits};
use group_terms::{
    Batch, BatchValues, LeafMarks, List, LkhId, MemberName, NoMemory, NodeValue, Path, PathKey,
    TrafficValue,
};
use group_values::KeptValues;
use std::alloc::Global;
use std::marker::Model;
use tree_leaves::holders::{self, Holder};

/// Who has which leaf at the present epoch, when each position got its key, and what the keys' values are (RFC 2627 section 5.4).
///
/// It knows no older epoch, so it takes the same memory after each batch. It stands for every list of batches that has made it.
#[derive(Drop)]
pub struct KeyTree {
    pub(crate) depth: u8,
    pub(crate) epoch: u32,
    pub(crate) sequence: u32,
    pub(crate) holders: List<Holder>,
    /// The last epoch in which each position got a key, by its number.
    pub(crate) made: List<Option<u32>>,
    pub(crate) kept: KeptValues,
    /// The leaves that somebody has.
    pub(crate) held: LeafMarks,
    /// Those that nobody has.
    pub(crate) free: LeafMarks,
    pub(crate) index: NameIndex,
}

impl Model for KeyTree {
    ghost use Rattle.key_tree.specs.Present.{Present};

    ghost Value = { Present };

    ghost use Rattle.key_tree.specs.Private.Presents.{IsPresent};

    ghost view = { λ tree. record {
      depth = tree.depth;
      epoch = tree.epoch;
      sequence = tree.sequence;
      holders = tree.holders;
      changes = tree.made;
      kept = tree.kept;
    } };

    ghost invariant = { λ tree. IsPresent tree.depth tree.holders tree.made tree.kept tree.held tree.free tree.index };
}

impl KeyTree {
    /// The tree before the first batch, with room for all positions and names. The depth is 1 to 9. `NoMemory` if out of memory for it.
    pub fn new(alloc: Global, depth: u8) -> Result<Self, NoMemory>
        requires shallow { 1 ≤ depth }
        requires not_deep { depth ≤ 9 }
        ensures depth { IfOk result (λ tree. tree.depth ≡ depth) }
        ensures empty { IfOk result (λ tree. StandsFor tree []) }
        ensures none { IfOk result (λ tree. KeepsLast tree.kept []) }
    {
        let held = LeafMarks::none(alloc, depth)?;
        let index = NameIndex::new(alloc, held.count())?;
        let holders = holders::nobody(alloc, depth)?;
        let free = holders::free(alloc, depth, holders.as_slice())?;
        let made = never_made(alloc, depth)?;
        let kept = KeptValues::new(alloc, depth)?;
        Ok(KeyTree {
            depth,
            epoch: 0,
            sequence: 0,
            holders,
            made,
            kept,
            held,
            free,
            index,
        })
    }

    /// How deep the tree is.
    pub fn depth(&self) -> u8
        ensures depth { result ≡ self.now.depth }
        ensures shallow { 1 ≤ result }
        ensures not_deep { result ≤ 9 }
    {
        self.depth
    }

    /// The present epoch.
    pub fn epoch(&self) -> u32
        ensures { result ≡ self.now.epoch }
    {
        self.epoch
    }

    /// The number of the last push (RFC 6407 section 5.7).
    pub fn sequence(&self) -> u32
        ensures { result ≡ self.now.sequence }
    {
        self.sequence
    }

    /// How many leaves the tree has.
    pub fn leaves(&self) -> usize
        ensures leaves { result ≡ 2 ^ self.now.depth }
        ensures each { result ≡ length self.now.holders }
        ensures few { result ≤ 512 }
    {
        self.holders.len()
    }

    /// How many members there are.
    pub fn members(&self) -> u32
        ensures members { result ≡ member_count self.now.holders }
        ensures few { result ≤ length self.now.holders }
    {
        self.held.marked() as u32
    }

    /// The leaf that a member has; `None` for who is no member, and only there (RFC 2627 section 5.4).
    pub fn leaf_of(&self, member: &MemberName) -> Option<LkhId>
        ensures place { result ≡ place_in self.now.depth self.now.holders member.now }
        ensures leaf { IfSome result (λ leaf. (2 ^ self.now.depth ≤ leaf) × (leaf < 2 ^ (self.now.depth + 1))) }
    {
        self.index.leaf(self.depth, self.holders.as_slice(), member)
    }

    /// Who has a leaf; `None` where nobody has it, and at a position that is no leaf.
    pub fn member_at(&self, leaf: LkhId) -> Option<MemberName>
        ensures { result ≡ member_at self.now.depth self.now.holders leaf }
    {
        let leaf = usize::from(leaf.number());
        if leaf < self.leaves() {
            return None;
        }
        *self.holders.as_slice().get(leaf - self.leaves())?
    }

    /// Whether somebody of this name is a member.
    pub fn is_member(&self, member: &MemberName) -> bool
        ensures member { result ≡ is_member self.now.holders member.now }
        ensures each { length self.now.holders ≡ 2 ^ self.now.depth }
    {
        self.index.has(self.holders.as_slice(), member)
    }

    /// The keys from a leaf up to the root, as a member that has it is told them (RFC 6407 section 5.6.3.1).
    pub fn path(&self, leaf: LkhId) -> Path
        requires from { 2 ^ self.now.depth ≤ leaf }
        requires to { leaf < 2 ^ (self.now.depth + 1) }
        ensures ids { map (λ (key : PathKey). key.id) result ≡ upwards self.now.depth leaf }
        ensures keys { All (IsPresentKey self.now) result }
    {
        let mut path = Path::new();
        let mut id = leaf;
        for _ in 0..self.depth() {
            path.push(self.key(id));
            id = above(id);
        }
        path.push(self.key(id));
        path
    }

    /// The key of a position: the epoch of its last change, and the value that was drawn last for it.
    pub fn key(&self, id: LkhId) -> PathKey
        requires { id < 2 ^ (self.now.depth + 1) }
        ensures id { result.id ≡ id }
        ensures key { IsPresentKey self.now result }
    {
        PathKey {
            id,
            made: self.last(id).unwrap_or(0),
            value: self.value(id),
        }
    }

    /// The last epoch at which a position was given a new key; `None` where there was none, and only there.
    pub fn last(&self, id: LkhId) -> Option<u32>
        ensures { result ≡ slice_index_or self.now.changes id None }
    {
        *self.made.as_slice().get(usize::from(id.number()))?
    }

    /// The last epoch at which a position was given a new key, once a batch is in; `None` where there was none, and only there.
    pub fn last_after(&self, marked: &Marked, id: LkhId) -> Option<u32>
        requires ready { IsReady self.now marked.now }
        requires within { id < 2 ^ (self.now.depth + 1) }
        ensures { result ≡ slice_index_or (installed self.now marked.now).changes id None }
    {
        let _ = &self.made;
        match self.renewed(marked, id) {
            Some(_) => Some(marked.epoch),
            None => self.last(id),
        }
    }

    /// Whether a member at or below a position stayed over a batch.
    pub fn is_stayed_below(&self, marked: &Marked, id: LkhId) -> bool
        requires ready { IsReady self.now marked.now }
        requires within { id < 2 ^ (self.now.depth + 1) }
        ensures { result ≡ is_stayed_below self.now.depth self.now.holders (holders_then self.now marked.now) id }
    {
        match self.renewed(marked, id) {
            Some(renewed) => renewed.stayed,
            None => self.held.is_below(usize::from(id.number())),
        }
    }

    /// What was found out about a position, if the batch renews it.
    fn renewed(&self, marked: &Marked, id: LkhId) -> Option<Renewed>
        requires ready { IsReady self.now marked.now }
        requires within { id < 2 ^ (self.now.depth + 1) }
        ensures { result ≡ (if is_fresh self.now.depth self.now.holders (holders_then self.now marked.now) id
            then Some (renewal self.now.depth self.now.holders (holders_then self.now marked.now) id) else None) }
    {
        let _ = &self.depth;
        let renewed = marked.renewed.as_slice();
        match search(renewed, id) {
            Ok(place) => Some(renewed[place]),
            Err(_) => None,
        }
    }

    /// The value that was drawn last for a position: that of its present key where a member stands below it, and at the root after the first batch.
    pub fn value(&self, id: LkhId) -> NodeValue
        requires { id < 2 ^ (self.now.depth + 1) }
        ensures { slice_get self.now.kept.nodes id ≡ Some result }
    {
        self.kept.node(id)
    }

    /// The value of a position's key after a batch that drew these values.
    pub fn value_after(&self, values: &BatchValues, id: LkhId) -> NodeValue
        requires { id < 2 ^ (self.now.depth + 1) }
        ensures { (list : List Made) (changes : List Change) (value : NodeValue) → KeepsLast self.now.kept list → Rises (ids_of values.now.nodes) →
            last_value (list ++ record { changes = changes; values = values.now } ∷ []) id ≡ Some value → result ≡ value }
    {
        self.kept.node_after(values, id)
    }

    /// Says that a value is kept for each number below 2^(depth + 1).
    pub fn prove_room(&self)
        ensures { length self.now.kept.nodes ≡ 2 ^ (self.now.depth + 1) }
    {
        let _ = &self.kept;
    }

    /// The value of the traffic key of the last batch; `None` before the first one.
    pub fn traffic(&self) -> Option<TrafficValue>
        ensures { result ≡ self.now.kept.traffic }
    {
        self.kept.traffic()
    }

    /// Whether the tree can take a batch next: each `Out` names a member, each `In` somebody who is none, no name comes twice,
    /// and the tree has a leaf for each.
    pub fn fits(&self, batch: &Batch) -> bool
        ensures { IsTrue result ↔ Fits self.now.holders batch.now }
    {
        fits(
            self.holders.as_slice(),
            &self.index,
            self.held.marked(),
            batch,
        )
    }
}

/// The last change of each position before the first batch: there is none.
fn never_made(alloc: Global, depth: u8) -> Result<List<Option<u32>>, NoMemory>
    requires { depth ≤ 9 }
    ensures { IfOk result (λ made. made ≡ replicate (2 ^ (depth + 1)) None) }
{
    let made = List::from_vec(vec![in alloc; None; 1 << (depth + 1)]?);
    Ok(made)
}

/// The position above another one, which is not the root.
pub fn above(id: LkhId) -> LkhId
    requires { 1 < id }
    ensures { result ≡ id / 2 }
{
    id.parent().unwrap()
}

/// Where a position is among those that rise, or where it would go.
fn search(renewed: &[Renewed], id: LkhId) -> Result<usize, usize>
    ensures range { IfOk result (λ place. place < length renewed.now) }
    ensures found { IfOk result (HoldsAt (λ (found : Renewed). found.id ≡ id) renewed.now) }
    ensures positive { 0 < id }
    ensures absent { Rises (ids_renewed renewed.now) → IfErr result (λ place. All (λ (found : Renewed). found.id ≢ id) renewed.now) }
{
    renewed.binary_search_by_key(&id.number(), |found| found.id.number())
}
