//! The refusals of the queue.
use thiserror::Error;

/// Why a change cannot wait.
#[derive(Clone, Copy, Debug, PartialEq, Eq, Error)]
pub enum QueueRefusal {
    /// A change of the same member is pending.
    #[error("a change of this member is pending")]
    AlreadyPending,
    /// As many changes are pending as a batch has at the most.
    #[error("{pending} changes are pending")]
    BatchFull { pending: u32 },
}
