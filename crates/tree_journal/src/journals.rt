//! A journal and its place on the disk.
ghost use Rattle.std.specs.Prelude.{◌≡◌, ℕ, List, length, false, true, Some, Ok, IsSome, IfOk};
ghost use Rattle.std.specs.Option.{unwrap_or};
ghost use Rattle.gd_disk.specs.Disks.{Knows, Only};
ghost use Rattle.gd_disk.specs.Moments.{shown, LeavesOnly};
ghost use Rattle.tree_journal.specs.Records.{records, bodies_from, is_named};

use gd_disk::Disk;
use group_terms::{NoMemory, Octets};
use journal_gates::MOST;
use std::alloc::Global;
use std::marker::Model;

/// A piece that is written at once: a length, a body and a clear commit mark. A commit mark, a length and a body are as many octets.
pub(crate) const PIECE: usize = 4 + MOST + 1;

/// The place of the first record's commit mark: after a commit mark and eight octets.
pub(crate) const FIRST: u64 = 9;

/// A journal on a disk.
#[derive(Drop)]
pub struct Journal<D: Disk> {
    pub(crate) disk: D,
    pub(crate) closed: bool,
    /// The place of the commit mark of the record that is read next.
    pub(crate) at: u64,
    /// The place of the clear commit mark, once it was found.
    pub(crate) end: Option<u64>,
    /// Room in which a piece is put together, or read: as many octets as the longest has.
    pub(crate) piece: Octets,
    /// Which octets of the file are at the front of the room.
    pub(crate) ahead: Ahead,
}

/// Octets of a file that were read ahead: so many from a place on.
#[derive(Clone, Copy)]
pub(crate) struct Ahead {
    pub(crate) at: u64,
    pub(crate) count: usize,
}

impl Ahead {
    /// Nothing was read ahead.
    pub(crate) const NONE: Ahead = Ahead { at: 0, count: 0 };
}

impl<D: Disk> Model for Journal<D> {
    ghost use Rattle.std.specs.Prelude.{◌≡◌, ◌≤◌, ◌+◌, ◌^◌, length, false, IfSome};
    ghost use Rattle.gd_disk.specs.Disks.{Knows};
    ghost use Rattle.gd_disk.specs.Moments.{shown};
    ghost use Rattle.tree_journal.specs.Private.Found.{IsAhead};
    ghost use Rattle.tree_journal.specs.Private.Fronts.{Stands};
    ghost use Rattle.tree_journal.specs.Views.{View};

    ghost Value = { View D };

    ghost invariant = { λ journal. (length journal.piece ≡ 65541) × (journal.at ≤ 2 ^ 62 + 65541) ×
        IfSome journal.end (λ end. end ≤ 2 ^ 62) × (journal.closed ≡ false → Stands D.Disk journal.disk journal.at journal.end) ×
        (journal.ahead.count ≤ 65541) × Knows (shown D.Disk journal.disk) (IsAhead journal.piece journal.ahead) };

    ghost view = { λ journal. record { disk = journal.disk; closed = journal.closed; at = journal.at; end = journal.end } };
}

impl<D: Disk> Journal<D> {
    /// The disk, as it is.
    pub fn into_disk(self) -> D
        ensures { result ≡ self.disk }
    {
        self.disk
    }

    /// Closes the journal: from now on each call answers `Closed`, until it is opened again.
    pub fn close(&mut self)
        ensures { self.new ≡ record self.old { closed = true } }
    {
        self.closed = true;
    }

    /// Reads from the first record again.
    pub fn rewind(&mut self)
        ensures { self.new ≡ record { disk = self.old.disk; closed = self.old.closed; at = 9; end = self.old.end } }
    {
        self.at = FIRST;
    }

    /// Goes on at the clear commit mark, if that is known, without reading what is before it.
    pub fn to_end(&mut self)
        ensures { self.new ≡ record self.old { at = unwrap_or self.old.end self.old.at } }
    {
        if let Some(end) = self.end {
            self.at = end;
        }
    }

    /// The place of the commit mark at which reading goes on.
    pub fn place(&self) -> u64
        ensures { result ≡ self.now.at }
    {
        self.at
    }

    /// Says what is known between two calls of a journal that is not closed: a crash leaves what a read gives and nothing else, the file begins as a
    /// journal, its records are those from the first commit mark on, and once the clear commit mark was found it is a journal.
    pub fn prove_at_rest(&self)
        ensures durable { self.now.closed ≡ false → Knows (shown D.Disk self.now.disk) (λ file. Only file (D.may_leave self.now.disk)) }
        ensures still { self.now.closed ≡ false → Knows (shown D.Disk self.now.disk)
            (λ file. LeavesOnly D.Disk self.now.disk self.now.disk (λ c. c ≡ file)) }
        ensures begins { self.now.closed ≡ false → Knows (shown D.Disk self.now.disk) (λ file. is_named file ≡ true) }
        ensures named { self.now.closed ≡ false → Knows (shown D.Disk self.now.disk) (λ file. records file ≡ bodies_from file 9) }
        ensures opens { self.now.closed ≡ false → IsSome self.now.end →
            Knows (shown D.Disk self.now.disk) (λ file. (bodies : List (List ℕ)) × (records file ≡ Ok bodies)) }
    {
        let _ = &self.disk;
    }
}

/// Room for a piece.
pub(crate) fn room(alloc: Global) -> Result<Octets, NoMemory>
    ensures { IfOk result (λ piece. length piece ≡ 65541) }
{
    Ok(Octets::from_vec(vec![in alloc; 0u8; PIECE]?))
}
