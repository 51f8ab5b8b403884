//! The names of groups.
ghost use Rattle.std.specs.Prelude.{◌≡◌, ◌≤◌, length, [], ◌∷◌, IsTrue};
ghost use Rattle.std.specs.Cmp.{partial_equiv_from_equiv};
ghost use Rattle.std.specs.Cmp.Lexicographic.{nat_list_eq_equiv};
ghost use Rattle.group_terms.specs.GroupNames.{is_group_name, group_name_of};
ghost use Rattle.group_terms.specs.Names.{same_name};

use crate::ShortOctets;
use std::marker::Model;

/// How many octets a name has at the most.
const MOST_OCTETS: usize = 32;

/// The name of a group: 1 to 32 octets of any value (RFC 2407 section 4.6.2.1).
#[derive(Clone, Copy)]
pub struct GroupName {
    octets: ShortOctets<MOST_OCTETS>,
}

impl Model for GroupName {
    ghost use Rattle.std.specs.Prelude.{◌≡◌, true, List, ℕ};
    ghost use Rattle.std.proofs.Common.{refl};
    ghost use Rattle.group_terms.specs.GroupNames.{is_group_name};

    ghost Value = { List ℕ };

    ghost view = { λ name. name.octets };

    ghost invariant = { λ name. is_group_name name.octets ≡ true };

    ghost inverse = { λ octets. record { octets = octets } };

    ghost inverse_ok = { λ name h. refl };
}

impl GroupName {
    /// The name that a text is, or `None` exactly where it has no octet or more than 32.
    pub fn read(text: &[u8]) -> Option<Self>
        ensures { result ≡ group_name_of text.now }
    {
        if text.is_empty() || text.len() > MOST_OCTETS {
            return None;
        }
        Some(GroupName {
            octets: ShortOctets::of(text),
        })
    }

    pub fn text(&self) -> &[u8]
        ensures octets { result.now ≡ self.now }
        ensures name { IsTrue (is_group_name self.now) }
    {
        self.octets.octets()
    }
}

impl Default for GroupName {
    ghost is_default = { λ name. name ≡ 95 ∷ [] };

    /// The name `_`, which stands in places that nothing shows.
    fn default() -> Self {
        GroupName {
            octets: ShortOctets::of(b"_"),
        }
    }
}

impl PartialEq for GroupName {
    ghost eq = { same_name };

    ghost laws = { partial_equiv_from_equiv nat_list_eq_equiv };

    fn eq(&self, other: &Self) -> bool {
        self.text() == other.text()
    }
}

impl Eq for GroupName {
    ghost laws = { nat_list_eq_equiv };
}
