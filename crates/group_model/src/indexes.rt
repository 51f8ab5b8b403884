//! Finding a member's leaf by its name.
ghost use Rattle.std.specs.Prelude.{◌≡◌, ◌<◌, ◌≤◌, ◌^◌, ℕ, length, replicate, slice_index_or, slice_set, IfOk, IsTrue, None, Some};
ghost use Rattle.std.specs.HashMap.{get};
ghost use Rattle.std.specs.List.{position};
ghost use Rattle.group_terms.specs.Names.{same_name};
ghost use Rattle.group_model.specs.Places.{Holders, is_held_by, is_member, place_in};
ghost use Rattle.group_model.specs.Indexes.{IsIndex, IsIndexOf};

use crate::{LkhId, MemberName, NoMemory};
use std::alloc::Global;
use std::collections::HashMap;
use tree_leaves::holders::{self, Holder};

/// The place of each member's leaf by its name, as long as there is room for that; without it names are looked for leaf by leaf.
#[derive(Drop)]
pub struct NameIndex {
    places: Option<HashMap<MemberName, usize>>,
}

impl NameIndex {
    /// The index of a tree with so many leaves, where nobody has one. It has room for twice as many names, so that it need not grow where names go and others come.
    /// `NoMemory` if out of memory for it.
    pub fn new(alloc: Global, leaves: usize) -> Result<Self, NoMemory>
        ensures { IfOk result (λ index. (n : ℕ) → IsIndexOf (replicate n None) index) }
    {
        let places = HashMap::with_capacity(alloc, leaves.saturating_mul(2))?;
        Ok(NameIndex {
            places: Some(places),
        })
    }

    /// No index is kept.
    pub fn none() -> Self
        ensures { (holders : Holders) → IsIndexOf holders result }
    {
        NameIndex { places: None }
    }

    /// The place of a member's leaf.
    pub fn find(&self, holders: &[Holder], member: &MemberName) -> Option<usize>
        requires { IsIndexOf holders.now self.now }
        ensures { result ≡ position (is_held_by member.now) holders.now }
    {
        match &self.places {
            Some(places) => places.get(member).copied(),
            None => holders::place_of(holders, member),
        }
    }

    /// Whether somebody of this name has a leaf.
    pub fn has(&self, holders: &[Holder], member: &MemberName) -> bool
        requires { IsIndexOf holders.now self.now }
        ensures { result ≡ is_member holders.now member.now }
    {
        self.find(holders, member).is_some()
    }

    /// The leaf that a member has.
    pub fn leaf(&self, depth: u8, holders: &[Holder], member: &MemberName) -> Option<LkhId>
        requires not_deep { depth ≤ 9 }
        requires leaves { length holders.now ≡ 2 ^ depth }
        requires index { IsIndexOf holders.now self.now }
        ensures { result ≡ place_in depth holders.now member.now }
    {
        match self.find(holders, member) {
            Some(place) => LkhId::new((holders.len() + place) as u16),
            None => None,
        }
    }

    /// Follows a leaf from one holder to the next.
    pub fn follow(&mut self, place: usize, before: &Holder, after: &Holder)
        ensures { (holders : Holders) → IsIndexOf holders self.old → place < length holders → slice_index_or holders place None ≡ before.now →
            IsIndexOf (slice_set holders place after.now) self.new }
    {
        let is_kept = match &mut self.places {
            Some(places) => followed(places, place, before, after),
            None => true,
        };
        if !is_kept {
            self.places = None;
        }
    }
}

/// The same in the map; `false` where it no longer fits.
fn followed(
    places: &mut HashMap<MemberName, usize>,
    place: usize,
    before: &Holder,
    after: &Holder,
) -> bool
    ensures { (holders : Holders) → IsIndex holders (get same_name places.old) → place < length holders → slice_index_or holders place None ≡ before.now →
        IsTrue result → IsIndex (slice_set holders place after.now) (get same_name places.new) }
{
    if let Some(member) = before {
        places.remove(member);
    }
    match after {
        Some(member) => matches!(places.insert(*member, place), Ok(None)),
        None => true,
    }
}
