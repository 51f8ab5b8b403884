//! Which key gives which, by numbers.
ghost use Rattle.std.specs.Prelude.{◌≡◌, ℕ, ◌<◌, [], ◌∷◌, ◌++◌, length, All, Contains, MatchOption, IfSome, IfOk, OnOk};
ghost use Rattle.sym_closure.specs.Firsts.{HasSame};
ghost use Rattle.sym_closure.specs.Private.Graphs.{AddsKeys, IsGraph, IsNumberOf, given_by, keys_at, pair_at, pairs_of};

use crate::once::Once;
use group_model::{KeyName, List, NoMemory, Wrap};
use std::alloc::Global;
use std::marker::Model;

/// Keys, each with its place as its number, and under each the numbers of the keys that it gives.
#[derive(Drop)]
pub(crate) struct KeyGraph {
    keys: Once<KeyName>,
    given: Vec<List<usize>>,
}

impl Model for KeyGraph {
    ghost use Rattle.sym_closure.specs.Private.Graphs.{Graph, IsGraph};

    ghost Value = { Graph };

    ghost view = { λ graph. record { keys = graph.keys; given = graph.given.items } };

    ghost invariant = { λ graph. IsGraph (record { keys = graph.keys; given = graph.given.items }) };
}

impl KeyGraph {
    /// No key. It takes no memory.
    pub(crate) fn new(alloc: Global) -> Self
        ensures { pairs_of result ≡ [] }
    {
        KeyGraph {
            keys: Once::new(alloc),
            given: Vec::new(alloc),
        }
    }

    /// How many keys have a number.
    pub(crate) fn len(&self) -> usize
        ensures count { result ≡ length self.now.keys }
        ensures graph { IsGraph self.now }
    {
        self.given.len()
    }

    /// The number of a key, where it has one.
    pub(crate) fn number(&self, key: &KeyName) -> Option<usize>
        ensures number { MatchOption result (Contains self.now.keys key.now → ⊥) (IsNumberOf self.now key.now) }
        ensures only { IfSome result (λ number. (other : ℕ) → IsNumberOf self.now key.now other → other ≡ number) }
    {
        self.keys.place(key)
    }

    /// The numbers of the keys that a key gives.
    pub(crate) fn given(&self, number: usize) -> &[usize]
        requires { number < length self.now.keys }
        ensures numbers { result.now ≡ given_by self.now number }
        ensures below { All (λ gives. gives < length self.now.keys) result.now }
    {
        self.given[number].as_slice()
    }

    /// The keys with some numbers.
    pub(crate) fn names(&self, alloc: Global, numbers: &[usize]) -> Result<List<KeyName>, NoMemory>
        requires { All (λ number. number < length self.now.keys) numbers.now }
        ensures { IfOk result (λ names. names ≡ keys_at self.now.keys numbers.now) }
    {
        let keys = self.keys.as_slice();
        let mut names = List::with_room(alloc, numbers.len())?;
        for number in numbers {
            names.push(keys[*number])?;
        }
        Ok(names)
    }

    /// Gives numbers to the keys that have none.
    pub(crate) fn add_keys(&mut self, alloc: Global, keys: &[KeyName]) -> Result<(), NoMemory>
        ensures pairs { OnOk result (HasSame (pairs_of self.old) (pairs_of self.new)) }
        ensures there { OnOk result (All (Contains self.new.keys) keys.now) }
    {
        for key in keys {
            self.add_key(alloc, key)?;
        }
        Ok(())
    }

    /// Adds a pair, and its keys.
    pub(crate) fn add(&mut self, alloc: Global, pair: &Wrap) -> Result<(), NoMemory>
        ensures { OnOk result (HasSame (pairs_of self.old ++ pair.now ∷ []) (pairs_of self.new)) }
    {
        let by = self.add_key(alloc, &pair.by)?;
        let gives = self.add_key(alloc, &pair.gives)?;
        self.give(by, gives)
    }

    /// The number of a key, which it gets where it has none.
    fn add_key(&mut self, alloc: Global, key: &KeyName) -> Result<usize, NoMemory>
        ensures grown { OnOk result (AddsKeys self.old self.new) }
        ensures number { IfOk result (IsNumberOf self.new key.now) }
    {
        if let Some(number) = self.number(key) {
            return Ok(number);
        }
        let number = self.given.len();
        self.given.push(List::new(alloc))?;
        match self.keys.add(*key) {
            Ok(_) => Ok(number),
            Err(NoMemory) => {
                self.given.pop();
                Err(NoMemory)
            }
        }
    }

    /// Lets a key give another.
    fn give(&mut self, by: usize, gives: usize) -> Result<(), NoMemory>
        requires by { by < length self.old.keys }
        requires gives { gives < length self.old.keys }
        ensures { OnOk result (HasSame (pairs_of self.old ++ pair_at self.old.keys by gives ∷ []) (pairs_of self.new)) }
    {
        self.given[by].push(gives)?;
        Ok(())
    }
}
