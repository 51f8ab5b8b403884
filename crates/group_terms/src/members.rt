//! A few names of members, in the order in which they were given.
ghost use Rattle.std.specs.Prelude.{◌≡◌, ◌<◌, ◌≤◌, [], ◌∷◌, ◌++◌, length};
ghost use Rattle.std.specs.Cmp.{partial_equiv_from_equiv};
ghost use Rattle.std.specs.Cmp.Lexicographic.{nat_list_eq_equiv, lists_equiv};

use crate::MemberName;
use arrayvec::ArrayVec;
use std::marker::Model;

/// How many members are asked about together at the most.
pub const MOST_MEMBERS: usize = 8;

/// Names of members in the order in which they were given, at most 8; one may come twice.
#[derive(Drop)]
pub struct MemberNames {
    names: ArrayVec<MemberName, MOST_MEMBERS>,
}

impl Model for MemberNames {
    ghost use Rattle.std.specs.Prelude.{List};
    ghost use Rattle.group_terms.specs.Names.{Name};

    ghost Value = { List Name };

    ghost view = { λ members. members.names.items };
}

impl MemberNames {
    /// No name.
    pub fn new() -> Self
        ensures { result ≡ [] }
    {
        MemberNames {
            names: ArrayVec::new(),
        }
    }

    /// Puts a name at the end.
    pub fn push(&mut self, name: MemberName)
        requires { length self.old < MOST_MEMBERS }
        ensures { self.new ≡ self.old ++ name ∷ [] }
    {
        self.names.push(name);
    }

    pub fn names(&self) -> &[MemberName]
        ensures names { result.now ≡ self.now }
        ensures few { length self.now ≤ MOST_MEMBERS }
    {
        self.names.as_slice()
    }
}

impl PartialEq for MemberNames {
    ghost use Rattle.std.specs.Cmp.Lexicographic.{pointwise};
    ghost use Rattle.group_terms.specs.Names.{same_name};

    ghost eq = { pointwise same_name };

    ghost laws = { partial_equiv_from_equiv (lists_equiv nat_list_eq_equiv) };

    fn eq(&self, other: &Self) -> bool {
        self.names() == other.names()
    }
}
