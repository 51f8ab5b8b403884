//! Positions of the tree by their numbers, and what their keys are called.
ghost use Rattle.std.specs.Prelude.{◌≡◌, ◌<◌};
ghost use Rattle.group_terms.specs.declared.keys.KeyName.TheVariants.{Node};

use group_terms::{KeyName, LkhId};

/// The position of this number.
pub fn position(number: usize) -> LkhId
    requires positive { 0 < number }
    requires small { number < 65536 }
    ensures { result ≡ number }
{
    LkhId::new(number as u16).unwrap()
}

/// The name of the key that a position was given in an epoch.
pub fn node(v: usize, made: u32) -> KeyName
    requires positive { 0 < v }
    requires small { v < 65536 }
    ensures { result ≡ Node v made }
{
    let id = position(v);
    KeyName::Node { id, made }
}
