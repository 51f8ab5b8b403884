//! What a store answers.
use thiserror::Error;

/// What a push gave that was taken.
#[derive(Clone, Copy, PartialEq, Eq)]
pub enum Taken {
    /// New keys of the tree: the root's key is now that of this epoch.
    Root { epoch: u32 },
    /// The traffic key of this epoch.
    Traffic { epoch: u32 },
}

/// A reply is older than what the store has: the last number that it tells is less than that of the store; or equal, and its epoch is less
/// than the root's.
#[derive(Clone, Copy, Debug, PartialEq, Eq, Error)]
#[error("a reply of number {got} after {last}")]
pub struct Older {
    /// The number of the last push that the store accepted.
    pub last: u32,
    /// The last number that the reply tells.
    pub got: u32,
}
