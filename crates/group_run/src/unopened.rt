//! What is left where no group was opened.
use group_model::{Entry, List};
use group_server::Parts;

/// What is left where no group was made or opened: the history, which has the refusal, or nothing where memory ran out before anything was done; and the disk,
/// the signer and the draws that it was given.
#[derive(Drop)]
pub struct Unopened<D, G, R> {
    pub history: List<Entry>,
    pub parts: Parts<D, G, R>,
}
