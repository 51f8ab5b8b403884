//! The names of members.
ghost use Rattle.std.specs.Prelude.{◌≡◌, ◌≤◌, length, [], ◌∷◌, IsTrue};
ghost use Rattle.std.specs.List.{list_all};
ghost use Rattle.std.specs.Cmp.{partial_equiv_from_equiv};
ghost use Rattle.std.specs.Cmp.Lexicographic.{nat_list_eq_equiv};
ghost use Rattle.group_terms.specs.Names.{is_name_octet, is_name, name_of, same_name};

use crate::ShortOctets;
use std::hash::{Hash, Hasher};
use std::marker::Model;

/// How many octets a name has at the most.
const MOST_OCTETS: usize = 32;

/// What a script calls a member: 1 to 32 octets out of a to z, 0 to 9 and `_`.
#[derive(Clone, Copy)]
pub struct MemberName {
    text: ShortOctets<MOST_OCTETS>,
}

impl Model for MemberName {
    ghost use Rattle.std.specs.Prelude.{◌≡◌, true, List, ℕ};
    ghost use Rattle.std.proofs.Common.{refl};
    ghost use Rattle.group_terms.specs.Names.{is_name};

    ghost Value = { List ℕ };

    ghost view = { λ name. name.text };

    ghost invariant = { λ name. is_name name.text ≡ true };

    ghost inverse = { λ text. record { text = text } };

    ghost inverse_ok = { λ name h. refl };
}

impl MemberName {
    /// The name that a text is, or `None` exactly where it is none.
    pub fn read(text: &[u8]) -> Option<Self>
        ensures { result ≡ name_of text.now }
    {
        if !reads_as_name(text) {
            return None;
        }
        Some(MemberName {
            text: ShortOctets::of(text),
        })
    }

    pub fn text(&self) -> &[u8]
        ensures octets { result.now ≡ self.now }
        ensures name { IsTrue (is_name self.now) }
    {
        self.text.octets()
    }
}

impl Default for MemberName {
    ghost is_default = { λ name. name ≡ 95 ∷ [] };

    /// The name `_`, which stands in places that nothing shows.
    fn default() -> Self {
        MemberName {
            text: ShortOctets::of(b"_"),
        }
    }
}

impl PartialEq for MemberName {
    ghost eq = { same_name };

    ghost laws = { partial_equiv_from_equiv nat_list_eq_equiv };

    fn eq(&self, other: &Self) -> bool {
        self.text() == other.text()
    }
}

impl Eq for MemberName {
    ghost laws = { nat_list_eq_equiv };
}

impl Hash for MemberName {
    ghost use Rattle.std.specs.Prelude.{[], ◌∷◌};
    ghost use Rattle.std.proofs.Common.{ap};
    ghost use Rattle.std.proofs.lemmas.Slice.Eq.{bytes_eq-Decides};

    ghost hash_input = { λ name. name ∷ [] };

    ghost respects_eq = { λ x y same. ap (λ text. text ∷ []) ((bytes_eq-Decides x y).0 same) };

    /// The octets of the text at once, not one after the other with the zeros after them.
    fn hash<H: Hasher>(&self, state: &mut H) {
        state.write(self.text());
    }
}

/// Whether a text is a name.
pub(crate) fn reads_as_name(text: &[u8]) -> bool
    ensures test { result ≡ is_name text.now }
    ensures fits { IsTrue result → length text.now ≤ MOST_OCTETS }
{
    1 <= text.len() && text.len() <= MOST_OCTETS && each_is_of_a_name(text)
}

fn each_is_of_a_name(text: &[u8]) -> bool
    ensures { result ≡ list_all is_name_octet text.now }
{
    text.iter().all(|c| is_of_a_name(*c))
}

fn is_of_a_name(c: u8) -> bool
    ensures { result ≡ is_name_octet c }
{
    c.is_ascii_lowercase() || c.is_ascii_digit() || c == b'_'
}
