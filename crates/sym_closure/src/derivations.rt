//! Checking a derivation.
ghost use Rattle.std.specs.Prelude.{◌≡◌, Contains, Decides};
ghost use Rattle.group_model.specs.Derivations.{IsAtHand, IsDerivation};

use group_model::{Derivation, KeyName, Wrap};

/// Whether keys stand in an order in which each follows from what is held and from those before it, and the goal is among them.
pub fn is_derivation(
    have: &[KeyName],
    pairs: &[Wrap],
    derivation: &Derivation,
    goal: &KeyName,
) -> bool
    ensures { Decides result (IsDerivation have.now pairs.now derivation.now.names × Contains derivation.now.names goal.now) }
{
    let names = derivation.names.as_slice();
    each_is_at_hand(have, pairs, names) && names.contains(goal)
}

fn each_is_at_hand(have: &[KeyName], pairs: &[Wrap], names: &[KeyName]) -> bool
    ensures { Decides result (IsDerivation have.now pairs.now names.now) }
{
    for place in 0..names.len() {
        let (earlier, others) = names.split_at(place);
        if !is_at_hand(have, pairs, earlier, &names[place]) {
            return false;
        }
    }
    true
}

/// Whether a key is held, or a pair gives it under one that came earlier.
fn is_at_hand(have: &[KeyName], pairs: &[Wrap], earlier: &[KeyName], name: &KeyName) -> bool
    ensures { Decides result (IsAtHand have.now pairs.now earlier.now name.now) }
{
    have.contains(name) || pairs.iter().any(|pair| gives(pair, earlier, name))
}

/// Whether a pair gives a key under one that came earlier.
fn gives(pair: &Wrap, earlier: &[KeyName], name: &KeyName) -> bool
    ensures { Decides result (Contains earlier.now pair.now.by × (pair.now.gives ≡ name.now)) }
{
    pair.gives == *name && earlier.contains(&pair.by)
}
