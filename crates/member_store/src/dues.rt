//! Candidate keys: the keys of a push that are for a path.
ghost use Rattle.std.specs.Prelude.{◌≡◌, ◌∷◌, ◌++◌, [], IfSome, true};
ghost use Rattle.std.specs.List.{filter};
ghost use Rattle.member_store.specs.Private.Dues.{is_due};
ghost use Rattle.member_store.specs.Takings.{keys_given};

use crate::paths::has_position;
use arrayvec::ArrayVec;
use group_terms::{IV_OCTETS, KEY_OCTETS, LONGEST_PATH, LkhId, PathKey};
use kd_wire::{SealedKey, SealedKeys, UpdateKey, Updates};
use std::marker::Model;

/// How many octets the data of a key has: its IV and itself.
pub(crate) const DATA_OCTETS: usize = IV_OCTETS + KEY_OCTETS;

/// For how many keys there is room: two for each position of the longest path.
const MOST_DUE: usize = 2 * LONGEST_PATH;

/// A key of a push that is for a path. It has a type of its own for its default, which an `ArrayVec` needs.
#[derive(Clone, Copy)]
pub(crate) struct Due {
    given: SealedKey,
}

impl Model for Due {
    ghost use Rattle.kd_wire.specs.declared.updates.SealedKey.{SealedKey};

    ghost Value = { SealedKey };

    ghost view = { λ due. due.given };

    ghost inverse = { λ given. record { given = given } };
}

impl Default for Due {
    fn default() -> Self {
        let gives = UpdateKey {
            id: LkhId::default(),
            made: 0,
            sealed: [0; DATA_OCTETS],
        };
        let given = SealedKey {
            by: LkhId::default(),
            by_made: 0,
            gives,
        };
        Due { given }
    }
}

impl Due {
    fn new(given: &SealedKey) -> Self
        ensures { result ≡ given.now }
    {
        Due { given: *given }
    }

    pub(crate) fn given(&self) -> &SealedKey
        ensures { result.now ≡ self.now }
    {
        &self.given
    }
}

/// The keys of these arrays that are for a path, if there is room for them.
pub(crate) fn dues(path: &[PathKey], arrays: Updates<'_>) -> Option<ArrayVec<Due, MOST_DUE>>
    ensures { IfSome result (λ due. due.items ≡ filter (is_due path.now) (keys_given arrays.entry)) }
{
    let mut due = ArrayVec::new();
    for array in arrays {
        if !add_dues(path, array.keys, &mut due) {
            return None;
        }
    }
    Some(due)
}

/// Adds the keys that are for a path; whether there was room for them.
fn add_dues(path: &[PathKey], keys: SealedKeys<'_>, due: &mut ArrayVec<Due, MOST_DUE>) -> bool
    ensures { result ≡ true → due.new.items ≡ due.old.items ++ filter (is_due path.now) keys.entry }
{
    for given in keys {
        if !add_if_due(path, &given, due) {
            return false;
        }
    }
    true
}

/// Adds a key if it is for a path; whether there was room for it.
fn add_if_due(path: &[PathKey], given: &SealedKey, due: &mut ArrayVec<Due, MOST_DUE>) -> bool
    ensures { result ≡ true → due.new.items ≡ due.old.items ++ filter (is_due path.now) (given.now ∷ []) }
{
    if !has_position(path, given.gives.id.number()) {
        return true;
    }
    if due.is_full() {
        return false;
    }
    due.push(Due::new(given));
    true
}
