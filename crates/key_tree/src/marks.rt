//! What is found out about a batch before it is installed.
ghost use Rattle.std.specs.Prelude.{◌≡◌};

use group_terms::{List, LkhId};
use tree_leaves::holders::Holder;

/// A leaf, and who has it from now on.
#[derive(Clone, Copy)]
pub struct Seat {
    /// The lowest leaf has the place 0.
    pub(crate) place: usize,
    pub(crate) holder: Holder,
}

/// A position that a batch renews.
#[derive(Clone, Copy)]
pub struct Renewed {
    pub id: LkhId,
    /// Whether somebody has a leaf there or below it after the batch.
    pub held: bool,
    /// Whether one of these stayed.
    pub stayed: bool,
}

/// What a batch makes of a tree. Its size is that of the paths from the changed leaves to the root.
#[derive(Drop)]
pub struct Marked {
    pub(crate) epoch: u32,
    pub(crate) sequence: u32,
    pub(crate) members: u32,
    pub(crate) stayed: bool,
    /// The leaves that change hands, one after the other.
    pub(crate) seats: List<Seat>,
    pub(crate) renewed: List<Renewed>,
    pub(crate) drawn: List<LkhId>,
    pub(crate) joined: List<LkhId>,
}

impl Marked {
    /// The epoch that the batch makes.
    pub fn epoch(&self) -> u32
        ensures { result ≡ self.now.epoch }
    {
        self.epoch
    }

    /// The number of the last push after the batch (RFC 6407 section 5.7).
    pub fn sequence(&self) -> u32
        ensures { result ≡ self.now.sequence }
    {
        self.sequence
    }

    /// How many members there are after the batch.
    pub fn members(&self) -> u32
        ensures { result ≡ self.now.members }
    {
        self.members
    }

    /// Whether somebody stayed over the batch.
    pub fn stayed(&self) -> bool
        ensures { result ≡ self.now.stayed }
    {
        self.stayed
    }

    /// The positions that the batch renews, rising: the root, and each at or above a leaf that changes hands (RFC 2627 section 5.4).
    pub fn renewed(&self) -> &[Renewed]
        ensures { result.now ≡ self.now.renewed }
    {
        self.renewed.as_slice()
    }

    /// The positions for whose keys the batch draws values, rising: each that it renews and below which a member stands then, and the root.
    pub fn drawn(&self) -> &[LkhId]
        ensures { result.now ≡ self.now.drawn }
    {
        self.drawn.as_slice()
    }

    /// The leaves of those who come in with the batch, in the order of the batch.
    pub fn joined(&self) -> &[LkhId]
        ensures { result.now ≡ self.now.joined }
    {
        self.joined.as_slice()
    }
}
