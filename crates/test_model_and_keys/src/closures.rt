//! What is derived in a small graph, and in drawn ones.
use crate::draws::{Draws, key};
use group_model::{KeyName, List, NoMemory, Wrap};
use std::alloc::Global;
use sym_closure::{Derivation, derive, is_derivation};

/// A key follows from the one that it is encrypted under. Of pairs drawn at random among twelve keys that is derived which a second closure reaches.
#[test]
fn what_is_derived_is_what_a_second_closure_reaches(rt: HostRuntime) {
    let mut draws = Draws { state: 7 };
    let mut holds = follows_from_its_leaf(rt.alloc());
    for _ in 0..300 {
        holds &= is_closed_alike(rt.alloc(), &mut draws);
    }
    assert!(rt; holds);
}

fn follows_from_its_leaf(alloc: Global) -> bool {
    let (leaf, above, root) = (key(5, 1), key(2, 1), key(1, 1));
    let pairs = [Wrap {
        by: leaf,
        gives: above,
    }];
    let found = derive(alloc, &[leaf], &pairs, &above);
    let follows = match &found {
        Ok(Some(found)) => leads_above(found, &pairs),
        _ => false,
    };
    drop(found);
    follows & is_derived_if(alloc, &leaf, &root, &pairs, false)
}

/// Whether a derivation leads from the leaf's key to the one above, and to no other, and from nothing else.
fn leads_above(found: &Derivation, pairs: &[Wrap]) -> bool {
    (found.names.as_slice() == [key(5, 1), key(2, 1)].as_slice())
        & is_derivation(&[key(5, 1)], pairs, found, &key(2, 1))
        & !is_derivation(&[key(5, 1)], pairs, found, &key(1, 1))
        & !is_derivation(&[], pairs, found, &key(2, 1))
}

/// Whether of a drawn graph the same keys are derived as a closure reaches.
fn is_closed_alike(alloc: Global, draws: &mut Draws) -> bool {
    let mut pairs = List::new(alloc);
    let mut reached = List::new(alloc);
    let are_drawn = draw_pairs(draws, &mut pairs).is_ok();
    let start = key(draws.number(), 1);
    let is_whole = reach(start, pairs.as_slice(), &mut reached).is_ok();
    let are_derived = are_derived(alloc, &start, pairs.as_slice(), reached.as_slice());
    drop(reached);
    drop(pairs);
    are_drawn & is_whole & are_derived
}

/// Whether of the twelve keys just these are derived.
fn are_derived(alloc: Global, start: &KeyName, pairs: &[Wrap], reached: &[KeyName]) -> bool {
    let mut same = true;
    for number in 1..13 {
        let goal = key(number, 1);
        same &= is_derived_if(alloc, start, &goal, pairs, reached.contains(&goal));
    }
    same
}

/// Up to 24 pairs of twelve keys.
fn draw_pairs(draws: &mut Draws, pairs: &mut List<Wrap>) -> Result<(), NoMemory> {
    for _ in 0..2 * u32::from(draws.number()) {
        let by = key(draws.number(), 1);
        let gives = key(draws.number(), 1);
        pairs.push(Wrap { by, gives })?;
    }
    Ok(())
}

/// What pairs lead to from a key, in up to twelve steps.
fn reach(start: KeyName, pairs: &[Wrap], reached: &mut List<KeyName>) -> Result<(), NoMemory> {
    reached.push(start)?;
    for _ in 0..12 {
        for pair in pairs {
            let names = reached.as_slice();
            if names.contains(&pair.by) && !names.contains(&pair.gives) {
                reached.push(pair.gives)?;
            }
        }
    }
    Ok(())
}

/// Whether a key is derived from another one exactly where it should be, by a derivation of it.
fn is_derived_if(
    alloc: Global,
    start: &KeyName,
    goal: &KeyName,
    pairs: &[Wrap],
    due: bool,
) -> bool {
    let have = [*start];
    let found = derive(alloc, &have, pairs, goal);
    let is_due = match &found {
        Ok(Some(derivation)) => due & is_derivation(&have, pairs, derivation, goal),
        Ok(None) => !due,
        Err(NoMemory) => false,
    };
    drop(found);
    is_due
}
