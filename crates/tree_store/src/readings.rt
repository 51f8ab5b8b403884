//! Reading the batches.
ghost use Rattle.std.specs.Prelude.{◌≡◌, ◌⊎◌, ◌<◌, ◌≤◌, ◌^◌, ◌++◌, [], ◌∷◌, ℕ, List, false, true, Some, Ok, Err, IfSome, IfErr, IsSome, OnErr, OnOk};
ghost use Rattle.gd_disk.specs.Disks.{Knows};
ghost use Rattle.gd_disk.specs.Moments.{shown, LeavesOnly, ReportsFaults};
ghost use Rattle.gd_wire.specs.Readings.{octet_at};
ghost use Rattle.tree_journal.specs.declared.refusals.JournalRefusal.TheVariants.{Closed, DiskFault, NotAJournal};
ghost use Rattle.group_records.specs.declared.batches.Stored.{Stored};
ghost use Rattle.tree_store.specs.declared.dues.Due.{Due};
ghost use Rattle.tree_store.specs.Groups.{IsGroup, IsGroupTo, HasNoneAt};
ghost use Rattle.tree_store.specs.Replays.{IsReadAfter, IsReplayOf};

use crate::replays::Replay;
use crate::stores::TreeStore;
use gd_disk::Disk;
use group_records::a_read_batch_has_a_high_spi;
use std::alloc::Global;
use tree_journal::{JournalRefusal, records_are_the_next_ones};

impl<D: Disk> TreeStore<D> {
    /// Reads the next batch, which is the replay's last one then; false exactly after the last one of the store, and then the replay is as it was.
    ///
    /// `NoMemory` if out of memory for the batch, `DiskFault` if the disk failed, `Closed` after that, and `NotAJournal` at the gate of a record that is
    /// not one that may come next, or not whole. A refusal leaves the store where it was, and the replay has the same batches; after `DiskFault` and
    /// `Closed` it is as it was.
    pub fn next_batch(&mut self, alloc: Global, replay: &mut Replay) -> Result<bool, JournalRefusal>
        ensures next { (list : List Stored) → IsReplayOf self.old.head replay.old list → result ≡ Ok true → (next : Due) × IsReadAfter self.old.head list next replay.new
            × Knows (shown D.Disk self.old.disk) (λ file. IsGroupTo file self.old.head list self.old.at →
            IsGroupTo file self.old.head (list ++ next.stored ∷ []) self.new.at) }
        ensures last { (list : List Stored) → result ≡ Ok false → Knows (shown D.Disk self.old.disk) (λ file.
            IsGroupTo file self.old.head list self.old.at → IsGroup file self.old.head list) }
        ensures broken { IfErr result (λ why. (at : ℕ) → why ≡ NotAJournal at → (at ≡ self.old.at)
            × ((list : List Stored) → IsReplayOf self.old.head replay.old list →
            Knows (shown D.Disk self.old.disk) (λ file. HasNoneAt file self.old.head list at))) }
        ensures there { result ≡ Ok true → IsSome replay.new.last }
        ensures high { result ≡ Ok true → IfSome replay.new.last (λ next. 128 ≤ octet_at next.stored.values.traffic.spi 0) }
        ensures near { result ≡ Ok true → (self.old.at < 2 ^ 62) × (self.old.at < self.new.at) }
        ensures stays { (result ≡ Ok true → ⊥) → self.new.at ≡ self.old.at }
        ensures same_replay { (result ≡ Ok false) ⊎ ((result ≡ Err Closed) ⊎ (result ≡ Err DiskFault)) → replay.new ≡ replay.old }
        ensures same_batches { (list : List Stored) → IsReplayOf self.old.head replay.old list → OnErr result (IsReplayOf self.old.head replay.new list) }
        ensures head { self.new.head ≡ self.old.head }
        ensures walked { result ≡ Ok false → self.new.end ≡ Some self.old.at }
        ensures end { (result ≡ Ok false → ⊥) → self.new.end ≡ self.old.end }
        ensures same { shown D.Disk self.new.disk ≡ shown D.Disk self.old.disk }
        ensures any_moment { self.old.closed ≡ false → Knows (shown D.Disk self.old.disk)
            (λ file. LeavesOnly D.Disk self.old.disk self.new.disk (λ c. c ≡ file)) }
        ensures closed { self.old.closed ≡ true → (result ≡ Err Closed) × (self.new ≡ self.old) }
        ensures refused { result ≡ Err Closed → self.old.closed ≡ true }
        ensures closes { result ≡ Err DiskFault → self.new.closed ≡ true }
        ensures goes_on { (result ≡ Err DiskFault → ⊥) → self.new.closed ≡ self.old.closed }
        ensures is_open { OnOk result (self.new.closed ≡ false) }
        ensures disk { ReportsFaults D.Disk (result ≡ Err DiskFault) self.old.disk self.new.disk }
    {
        records_are_the_next_ones();
        a_read_batch_has_a_high_spi();
        if !self.journal.peek(&mut self.body)? {
            return Ok(false);
        }
        replay.settle();
        let at = self.journal.place();
        if !replay.go_on(alloc, self.body.as_slice(), self.head.limit)? {
            return Err(JournalRefusal::NotAJournal { at });
        }
        self.journal.pass(self.body.as_slice());
        Ok(true)
    }
}
