//! The positions of the key tree.
ghost use Rattle.std.specs.Prelude.{◌≡◌, ◌≢◌, ◌/◌, ◌*◌, ◌+◌, ◌<◌, ◌≤◌, ◌^◌, ◌↔◌, ℕ, ◌==◌, true, None, Some, if◌then◌else◌};
ghost use Rattle.group_terms.specs.Positions.{IsBelow, is_below};

use std::marker::Model;

/// A position of the key tree: RFC 6407's LKH ID (section 5.6.3). The root is 1, and 0 is none.
#[derive(Clone, Copy, Debug, PartialEq, Eq, Hash)]
pub struct LkhId {
    number: u16,
}

impl Model for LkhId {
    ghost use Rattle.std.specs.Prelude.{ℕ, ◌<◌};

    ghost Value = { ℕ };

    ghost view = { λ id. id.number };

    ghost invariant = { λ id. 0 < id.number };

    ghost inverse = { λ number. record { number = number } };
}

impl LkhId {
    /// The position of this number, or `None` at 0.
    pub fn new(number: u16) -> Option<Self>
        ensures { result ≡ (if number == 0 then None else Some number) }
    {
        if number == 0 {
            None
        } else {
            Some(LkhId { number })
        }
    }

    pub fn number(self) -> u16
        ensures value { result ≡ self }
        ensures positive { 0 < result }
    {
        self.number
    }

    /// The position above, or `None` at the root (RFC 2627 section 5.4).
    pub fn parent(self) -> Option<LkhId>
        ensures { result ≡ (if self == 1 then None else Some (self / 2)) }
    {
        LkhId::new(self.number / 2)
    }
}

impl Default for LkhId {
    ghost is_default = { λ id. id ≡ 1 };

    /// The root, which stands in places that nothing shows.
    fn default() -> Self {
        LkhId { number: 1 }
    }
}

/// No more steps lead from a leaf to a position above it than the tree is deep.
pub fn steps_are_at_most_the_depth()
    ensures { (depth v x : ℕ) → 0 < v → x < 2 ^ (depth + 1) → (is_below depth v x ≡ true) ↔ IsBelow v x }
{}
