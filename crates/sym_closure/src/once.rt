//! Lists in which nothing stands twice.
// `requires exact { (a b : T) → Decides (T.eq a b) (a ≡ b) }` turns clauses from `T.eq` to `≡`; it is found for derived `==` where the call is in a small
// function.
ghost use Rattle.std.specs.Prelude.{◌≡◌, ◌<◌, [], ◌∷◌, ◌++◌, length, slice_index_or, Contains, Decides};
ghost use Rattle.std.specs.Prelude.{IsTrue, IsFalse, MatchOption, IfOk, OnOk, OnErr};
ghost use Rattle.sym_closure.specs.Private.Gains.{Gains};

use group_model::{List, NoMemory};
use std::alloc::Global;
use std::collections::HashMap;
use std::hash::Hash;
use std::marker::Model;

/// Items in the order in which they came first, each once, and the place of each.
#[derive(Drop)]
pub(crate) struct Once<T: Eq + Hash> {
    items: List<T>,
    places: HashMap<T, usize>,
}

impl<T: Eq + Hash> Model for Once<T> {
    ghost use Rattle.std.specs.Prelude.{◌≡◌, List as Items};
    ghost use Rattle.std.specs.List.{position_from};
    ghost use Rattle.std.specs.HashMap.{get};

    ghost Value = { Items T };

    ghost view = { λ once. once.items };

    ghost invariant = { λ once. (item : T) → get T.eq once.places item ≡ position_from (T.eq item) 0 once.items };
}

impl<T: Copy + Drop + Eq + Hash> Once<T> {
    /// No item. It takes no memory.
    pub(crate) fn new(alloc: Global) -> Self
        ensures { result ≡ [] }
    {
        Once {
            items: List::new(alloc),
            places: HashMap::new(alloc),
        }
    }

    /// The place of an item, where it is there, of a type whose items are equal where they are the same.
    pub(crate) fn place(&self, item: &T) -> Option<usize>
        requires exact { (a b : T) → Decides (T.eq a b) (a ≡ b) }
        ensures { MatchOption result (Contains self.now item.now → ⊥) (λ place.
            (place < length self.now) × (slice_index_or self.now place item.now ≡ item.now)) }
    {
        self.places.get(item).copied()
    }

    /// The items.
    pub(crate) fn as_slice(&self) -> &[T]
        ensures { result.now ≡ self.now }
    {
        self.items.as_slice()
    }

    /// Puts an item at the end, unless it is there; says whether it was not.
    pub(crate) fn add(&mut self, item: T) -> Result<bool, NoMemory>
        requires exact { (a b : T) → Decides (T.eq a b) (a ≡ b) }
        ensures gains { OnOk result (Gains self.old (item ∷ []) self.new) }
        ensures added { IfOk result (λ added. IsTrue added → (Contains self.old item → ⊥) × (self.new ≡ self.old ++ item ∷ [])) }
        ensures there { IfOk result (λ added. IsFalse added → Contains self.old item × (self.new ≡ self.old)) }
        ensures err { OnErr result (self.new ≡ self.old) }
    {
        if self.place(&item).is_some() {
            return Ok(false);
        }
        let place = self.items.len();
        self.items.push(item)?;
        match self.places.insert(item, place) {
            Ok(_) => Ok(true),
            Err(_) => {
                self.items.pop();
                Err(NoMemory)
            }
        }
    }

    /// Puts the items of a slice at the end that are not there.
    pub(crate) fn add_all(&mut self, items: &[T]) -> Result<(), NoMemory>
        requires exact { (a b : T) → Decides (T.eq a b) (a ≡ b) }
        ensures { OnOk result (Gains self.old items.now self.new) }
    {
        for item in items {
            self.add(*item)?;
        }
        Ok(())
    }

    /// The items. It takes no memory.
    pub(crate) fn into_list(self) -> List<T>
        ensures { result ≡ self }
    {
        let Once { items, places: _ } = self;
        items
    }
}
