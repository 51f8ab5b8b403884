//! The store of a group.
ghost use Rattle.std.specs.Prelude.{◌≡◌, ◌≤◌, false};
ghost use Rattle.gd_disk.specs.Disks.{Knows, Only};
ghost use Rattle.gd_disk.specs.Moments.{shown, LeavesOnly};

use gd_disk::Disk;
use group_records::Head;
use group_terms::Octets;
use std::fmt;
use std::marker::Model;
use tree_journal::Journal;

/// The group on a disk.
#[derive(Drop)]
pub struct TreeStore<D: Disk> {
    pub(crate) journal: Journal<D>,
    pub(crate) head: Head,
    /// Room for a record.
    pub(crate) body: Octets,
}

impl<D: Disk> fmt::Debug for TreeStore<D> {
    ghost use Rattle.std.specs.Prelude.{Some, codes};

    ghost debug_output = { λ _. Some (codes "TreeStore { .. }") };

    fn fmt<W: fmt::Write>(&self, f: &mut fmt::Formatter<W>) -> fmt::Result {
        f.write_str("TreeStore { .. }")
    }
}

impl<D: Disk> Model for TreeStore<D> {
    ghost use Rattle.std.specs.Prelude.{◌≤◌};
    ghost use Rattle.tree_store.specs.Views.{View};

    ghost Value = { View D };

    ghost invariant = { λ store. (1 ≤ store.head.depth) × (store.head.depth ≤ 9) × (1 ≤ store.head.limit) };

    ghost view = { λ store. record {
      disk = store.journal.disk;
      closed = store.journal.closed;
      at = store.journal.at;
      end = store.journal.end;
      head = store.head;
    } };
}

impl<D: Disk> TreeStore<D> {
    /// What the group was made with: a tree of depth 1 to 9, and a limit of at least 1.
    pub fn head(&self) -> Head
        ensures head { result ≡ self.now.head }
        ensures shallow { 1 ≤ result.depth }
        ensures not_deep { result.depth ≤ 9 }
        ensures limited { 1 ≤ result.limit }
    {
        self.head
    }

    /// The place of the gate at which reading goes on.
    pub fn place(&self) -> u64
        ensures { result ≡ self.now.at }
    {
        self.journal.place()
    }

    /// Says what is known between two calls of a store that is not closed: a crash leaves what a read gives and nothing else.
    pub fn prove_at_rest(&self)
        ensures durable { self.now.closed ≡ false → Knows (shown D.Disk self.now.disk) (λ file. Only file (D.may_leave self.now.disk)) }
        ensures still { self.now.closed ≡ false → Knows (shown D.Disk self.now.disk)
            (λ file. LeavesOnly D.Disk self.now.disk self.now.disk (λ c. c ≡ file)) }
    {
        self.journal.prove_at_rest();
    }

    /// The disk, as it is.
    pub fn into_disk(self) -> D
        ensures { result ≡ self.disk }
    {
        self.journal.into_disk()
    }
}
