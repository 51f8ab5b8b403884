//! What a core is made of, and what it gives.
use crate::{Core, GroupName, Keyed, MemberName, PushPair, Refusal};
use gd_disk::Disk;
use gd_edges::{Draws, Signer};
use group_terms::{List, Wrap};

/// What a core is built on: a disk for its journal, who signs its pushes, and where its keys come from.
#[derive(Drop)]
pub struct Parts<D, G, R> {
    pub disk: D,
    pub signer: G,
    pub draws: R,
}

/// What a group is made with: the depth of its tree, 1 to 9, its name, and how far its epochs and its sequence numbers may go.
#[derive(Clone, Copy, PartialEq, Eq)]
pub struct NewGroup {
    pub depth: u8,
    pub name: GroupName,
    pub limit: u32,
}

/// Why no core was made or opened, and the parts, given back.
#[derive(Drop)]
pub struct Opening<D, G, R> {
    pub refusal: Refusal,
    pub parts: Parts<D, G, R>,
}

/// A core that was opened, and the pair of its last batch, where that one sent a pair.
#[derive(Drop)]
pub struct CoreOpened<D: Disk, G: Signer, R: Draws> {
    pub core: Core<D, G, R>,
    pub resent: Option<PushPair>,
}

/// What a batch puts out: the epoch that it made, the number of the last push, how many members there are, what is encrypted, the pair of pushes if
/// somebody stayed, and the keys for each member who comes in, in the order of their changes.
#[derive(Drop)]
pub struct CoreOutput {
    pub epoch: u32,
    pub sequence: u32,
    pub members: u32,
    pub wraps: List<Wrap>,
    pub pushes: Option<PushPair>,
    pub told: List<(MemberName, Keyed)>,
}
