//! Patterns of names, and rules of who may join.
ghost use Rattle.std.specs.Prelude.{◌≡◌, ◌≤◌, length, IsTrue};
ghost use Rattle.group_terms.specs.Patterns.{is_pattern, matches, pattern_of};

use crate::names::reads_as_name;
use crate::{MemberName, ShortOctets};
use std::marker::Model;

/// How many octets a pattern has at the most: those of a name, and a `*`.
const MOST_OCTETS: usize = 33;

/// Which members a rule matches. A name matches the member of that name. A name with a `*` after it matches all whose names begin with it, and `*` alone
/// matches everybody.
#[derive(Clone, Copy)]
pub struct Pattern {
    text: ShortOctets<MOST_OCTETS>,
}

impl Model for Pattern {
    ghost use Rattle.std.specs.Prelude.{◌≡◌, true, List, ℕ};
    ghost use Rattle.std.proofs.Common.{refl};
    ghost use Rattle.group_terms.specs.Patterns.{is_pattern};

    ghost Value = { List ℕ };

    ghost view = { λ pattern. pattern.text };

    ghost invariant = { λ pattern. is_pattern pattern.text ≡ true };

    ghost inverse = { λ text. record { text = text } };

    ghost inverse_ok = { λ pattern h. refl };
}

impl Pattern {
    /// The pattern that a text is; `None` exactly where it is none.
    pub fn read(text: &[u8]) -> Option<Self>
        ensures { result ≡ pattern_of text.now }
    {
        if !reads_as_pattern(text) {
            return None;
        }
        Some(Pattern {
            text: ShortOctets::of(text),
        })
    }

    /// Whether it matches a member.
    pub fn matches(&self, member: &MemberName) -> bool
        ensures { result ≡ matches self.now member.now }
    {
        match self.text() {
            [front @ .., b'*'] => member.text().starts_with(front),
            name => name == member.text(),
        }
    }

    /// Its octets.
    pub fn text(&self) -> &[u8]
        ensures octets { result.now ≡ self.now }
        ensures pattern { IsTrue (is_pattern self.now) }
    {
        self.text.octets()
    }
}

impl Default for Pattern {
    ghost use Rattle.std.specs.Prelude.{◌≡◌, [], ◌∷◌};

    ghost is_default = { λ pattern. pattern ≡ 42 ∷ [] };

    /// The pattern `*`, a filler that no output shows.
    fn default() -> Self {
        Pattern {
            text: ShortOctets::of(b"*"),
        }
    }
}

/// A rule of the policy: whether it lets members in, and which members it matches.
#[derive(Clone, Copy)]
pub struct Rule {
    pub allow: bool,
    pub pattern: Pattern,
}

/// Whether a text is a pattern.
fn reads_as_pattern(text: &[u8]) -> bool
    ensures test { result ≡ is_pattern text.now }
    ensures fits { IsTrue result → length text.now ≤ MOST_OCTETS }
{
    match text {
        [b'*'] => true,
        [front @ .., b'*'] => reads_as_name(front),
        name => reads_as_name(name),
    }
}
