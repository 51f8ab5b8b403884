//! What was done to the octets of a disk in memory.
use group_terms::Octets;

/// What was done to the octets of a disk in memory, with the octets that undo it.
#[derive(Drop)]
pub(crate) enum Event {
    /// These octets were written at a place, over the others.
    Wrote {
        at: usize,
        octets: Octets,
        undo: Octets,
    },
    /// All from a place on was cut, which were these octets.
    Shortened {
        to: usize,
        undo: Octets,
    },
    Synced,
}
