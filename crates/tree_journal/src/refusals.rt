//! Why a journal does not do what it is asked for.
ghost use Rattle.std.specs.Prelude.{◌≡◌};
ghost use Rattle.tree_journal.specs.declared.refusals.JournalRefusal.TheVariants as refusals;

use gd_disk::{Disk, Failed};
use group_terms::NoMemory;
use thiserror::Error;

/// Why a journal refuses.
#[derive(Clone, Copy, Debug, PartialEq, Eq, Error)]
pub enum JournalRefusal {
    /// The journal is closed: an earlier call met a fault of the disk, could not open it again, or closed it.
    #[error("closed")]
    Closed,
    /// The disk failed.
    #[error("the disk failed")]
    DiskFault,
    /// The file is no journal; the place of the commit mark where that shows, or 0 where its beginning is another.
    #[error("no journal at octet {at}")]
    NotAJournal { at: u64 },
    /// There is no memory.
    #[error("no memory")]
    NoMemory,
}

/// Why no journal is made or opened, and the disk.
#[derive(Drop)]
pub struct FormatRefusal<D: Disk> {
    pub why: JournalRefusal,
    pub disk: D,
}

impl From<Failed> for JournalRefusal {
    ghost from_gives = { λ _ refusal. refusal ≡ refusals.DiskFault };

    fn from(_: Failed) -> Self {
        JournalRefusal::DiskFault
    }
}

impl From<NoMemory> for JournalRefusal {
    ghost from_gives = { λ _ refusal. refusal ≡ refusals.NoMemory };

    fn from(_: NoMemory) -> Self {
        JournalRefusal::NoMemory
    }
}
