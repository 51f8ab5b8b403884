//! What is listed of a journal.
ghost use Rattle.std.specs.Prelude.{◌≡◌};
ghost use Rattle.journal_listing.specs.Listings.{listed_as};

use group_records::{Head, Stored};
use group_terms::{Batch, List};

/// A batch but for the values of its keys.
#[derive(Drop)]
pub struct ListedBatch {
    pub epoch: u32,
    /// The number of the last push after it.
    pub sequence: u32,
    /// How many positions of the tree it gave a new key.
    pub keys: usize,
    pub changes: Batch,
}

/// How the octets of a journal end.
#[derive(Clone, Copy, PartialEq, Eq)]
pub enum JournalEnd {
    /// With the clear commit mark after the last record.
    Whole,
    /// At this place is the clear commit mark, and octets follow it, as of a record that was begun.
    Begun { at: u64 },
    /// At this place is neither a clear commit mark nor a record that is due.
    NotAJournal { at: u64 },
}

/// What a journal has: the head of its group, where it has one, the batches up to the first clear commit mark or the first fault, and how it ends.
#[derive(Drop)]
pub struct Listing {
    pub head: Option<Head>,
    pub batches: List<ListedBatch>,
    pub end: JournalEnd,
}

/// A batch as it is listed. The values of its keys are left out.
pub(crate) fn listed(stored: &Stored) -> ListedBatch
    ensures { result ≡ listed_as stored.now }
{
    ListedBatch {
        epoch: stored.epoch,
        sequence: stored.sequence,
        keys: stored.values.nodes.len(),
        changes: copied(&stored.batch),
    }
}

/// The same changes.
fn copied(batch: &Batch) -> Batch
    ensures { result ≡ batch.now }
{
    let mut copy = Batch::new();
    for change in batch.changes() {
        copy.push(*change);
    }
    copy
}
