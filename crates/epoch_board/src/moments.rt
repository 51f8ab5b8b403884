//! The history of a board.
use crate::pairs::Seen;

/// A moment in the history of a board, which has one for each pair that was published and one for each look. No value of it is made.
pub enum Moment {
    /// This pair was published.
    Published(Seen),
    /// A pass looked.
    Looked,
}
