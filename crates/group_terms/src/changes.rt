//! Changes of membership, and the batch that takes up at most 32 of them.
ghost use Rattle.std.specs.Prelude.{◌≡◌, ◌<◌, ◌≤◌, [], ◌∷◌, ◌++◌, length};
ghost use Rattle.group_terms.specs.Names.{same_name};
ghost use Rattle.group_terms.specs.Changes.{member_of, is_pending, leaver, leavers, joiner, joiners};

use crate::MemberName;
use arrayvec::ArrayVec;
use std::marker::Model;

/// How many changes a batch has at the most.
pub const MOST_CHANGES: usize = 32;

/// A change of membership: a member goes out, or a name comes in.
#[derive(Clone, Copy, PartialEq, Eq)]
pub enum Change {
    Out { member: MemberName },
    In { member: MemberName },
}

impl Change {
    /// Whom it changes.
    pub fn member(&self) -> &MemberName
        ensures { result.now ≡ member_of self.now }
    {
        match self {
            Change::Out { member } => member,
            Change::In { member } => member,
        }
    }
}

impl Default for Change {
    ghost use Rattle.group_terms.specs.declared.changes.Change.TheVariants.{In};

    ghost is_default = { λ change. change ≡ In (95 ∷ []) };

    /// To let the name `_` in, which stands in places that nothing shows.
    fn default() -> Self {
        Change::In {
            member: MemberName::default(),
        }
    }
}

/// The changes that one epoch takes up together, in the order in which they were asked for; at most 32.
#[derive(Drop)]
pub struct Batch {
    changes: ArrayVec<Change, MOST_CHANGES>,
}

impl Model for Batch {
    ghost use Rattle.std.specs.Prelude.{List};
    ghost use Rattle.group_terms.specs.declared.changes.Change.{Change};

    ghost Value = { List Change };

    ghost view = { λ batch. batch.changes.items };
}

impl Batch {
    /// The batch without a change.
    pub fn new() -> Self
        ensures { result ≡ [] }
    {
        Batch {
            changes: ArrayVec::new(),
        }
    }

    /// Puts a change at the end.
    pub fn push(&mut self, change: Change)
        requires { length self.old < MOST_CHANGES }
        ensures { self.new ≡ self.old ++ change ∷ [] }
    {
        self.changes.push(change);
    }

    /// The changes in their order.
    pub fn changes(&self) -> &[Change]
        ensures changes { result.now ≡ self.now }
        ensures few { length self.now ≤ MOST_CHANGES }
    {
        self.changes.as_slice()
    }

    /// Whether some change is about a member.
    pub fn has(&self, member: &MemberName) -> bool
        ensures { result ≡ is_pending self.now member.now }
    {
        is_named(self.changes(), member)
    }

    /// How many changes take a member out.
    pub fn leaves(&self) -> usize
        ensures count { result ≡ length (leavers self.now) }
        ensures few { result ≤ MOST_CHANGES }
    {
        self.changes().iter().filter_map(leaver).count()
    }

    /// How many changes let somebody in.
    pub fn joins(&self) -> usize
        ensures count { result ≡ length (joiners self.now) }
        ensures few { result ≤ MOST_CHANGES }
    {
        self.changes().iter().filter_map(joiner).count()
    }
}

/// Whether some change is about a member.
pub fn is_named(changes: &[Change], member: &MemberName) -> bool
    ensures { result ≡ is_pending changes.now member.now }
{
    changes.iter().any(|change| is_about(change, member))
}

fn is_about(change: &Change, member: &MemberName) -> bool
    ensures { result ≡ same_name member.now (member_of change.now) }
{
    member == change.member()
}

/// Whom a change takes out.
fn leaver(change: &Change) -> Option<MemberName>
    ensures { result ≡ leaver change.now }
{
    match change {
        Change::Out { member } => Some(*member),
        Change::In { .. } => None,
    }
}

/// Whom a change lets in.
fn joiner(change: &Change) -> Option<MemberName>
    ensures { result ≡ joiner change.now }
{
    match change {
        Change::Out { .. } => None,
        Change::In { member } => Some(*member),
    }
}
