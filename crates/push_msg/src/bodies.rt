//! What a push gives.
use group_terms::TrafficValue;
use kd_wire::UpdateSpan;

/// A push that was opened: its number, and what it gives.
#[derive(Clone, Copy, PartialEq, Eq)]
pub struct OpenPush {
    pub sequence: u32,
    pub body: OpenBody,
}

/// What a push gives.
#[derive(Clone, Copy, PartialEq, Eq)]
pub enum OpenBody {
    /// New keys of the tree, all made in one epoch: where their update arrays are in the body of the key download.
    Membership { root_made: u32, span: UpdateSpan },
    /// The traffic key.
    Traffic { traffic: TrafficValue },
}
