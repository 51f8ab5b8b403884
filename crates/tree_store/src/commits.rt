//! Storing a batch.
ghost use Rattle.std.specs.Prelude.{◌≡◌, ◌⊎◌, ◌≤◌, ◌++◌, [], ◌∷◌, ℕ, List, length, true, false, Ok, Err, IsSome, IfOk, IfErr, OnOk, OnErr};
ghost use Rattle.gd_disk.specs.Disks.{Knows};
ghost use Rattle.gd_disk.specs.Moments.{shown, LeavesOnly, ReportsFaults};
ghost use Rattle.gd_wire.specs.Readings.{octet_at};
ghost use Rattle.group_records.specs.Records.{IsBatchOf};
ghost use Rattle.group_records.specs.Texts.{batch_text};
ghost use Rattle.group_records.specs.declared.batches.Stored.{Stored};
ghost use Rattle.group_records.specs.declared.heads.Head.{Head};
ghost use Rattle.tree_journal.specs.declared.refusals.JournalRefusal.TheVariants.{Closed, DiskFault};
ghost use Rattle.tree_store.specs.Groups.{IsDue, IsGroup, IsGroupTo, HasGroup, IsGroupBeforeOrAfter};

use crate::stores::TreeStore;
use gd_disk::Disk;
use group_records::{a_written_record_is_read, prove_batch_fits, write_batch};
use group_terms::{Batch, BatchValues, NoMemory, Octets};
use std::alloc::Global;
use tree_journal::JournalRefusal;

impl<D: Disk> TreeStore<D> {
    /// The record of a batch with the values of its keys, of at most 65,535 positions; `NoMemory` if out of memory for it. It is read as that
    /// batch if the SPI of its traffic key has its highest bit set, as it must (RFC 4303 section 2.1).
    pub fn make_record(
        alloc: Global,
        batch: &Batch,
        epoch: u32,
        sequence: u32,
        values: &BatchValues,
    ) -> Result<Octets, NoMemory>
        requires { length values.now.nodes ≤ 65535 }
        ensures octets { IfOk result (λ made. made ≡ batch_text batch.now epoch sequence values.now) }
        ensures few { length values.now.nodes ≤ 1023 → IfOk result (λ made. length made ≤ 65536) }
        ensures read { 128 ≤ octet_at values.now.traffic.spi 0 → IfOk result (λ made.
            IsBatchOf made (record { batch = batch.now; epoch = epoch; sequence = sequence; values = values.now })) }
    {
        prove_batch_fits(batch, epoch, sequence, values);
        a_written_record_is_read();
        write_batch(alloc, batch, epoch, sequence, values)
    }

    /// Stores a batch, whose record was made before and which is due after those that are stored. It takes no memory. A store that was opened has
    /// to be read to its last batch first.
    ///
    /// On an honest disk the batch is there from Ok on, whatever crash comes. `DiskFault` if the disk failed: the batch is there or not, and the
    /// store is closed; from then on each call answers `Closed`.
    pub fn commit(&mut self, made: &Octets) -> Result<(), JournalRefusal>
        requires few { length made.now ≤ 65536 }
        requires walked { self.old.closed ≡ false → IsSome self.old.end }
        requires due { self.old.closed ≡ false → (head : Head) (list : List Stored) → HasGroup (shown D.Disk self.old.disk) head list →
            (stored : Stored) × IsBatchOf made.now stored × IsDue head list stored }
        ensures ok { (head : Head) (list : List Stored) (stored : Stored) → HasGroup (shown D.Disk self.old.disk) head list →
            IsBatchOf made.now stored → OnOk result (HasGroup (shown D.Disk self.new.disk) head (list ++ stored ∷ [])) }
        ensures durable { (head : Head) (list : List Stored) (stored : Stored) → HasGroup (shown D.Disk self.old.disk) head list →
            IsBatchOf made.now stored → OnOk result ((c : List ℕ) → D.may_leave self.new.disk c → IsGroup c head (list ++ stored ∷ [])) }
        ensures ahead { (head : Head) (read : List Stored) → Knows (shown D.Disk self.old.disk) (λ file. IsGroupTo file head read self.old.at) →
            OnOk result (Knows (shown D.Disk self.new.disk) (λ file. IsGroupTo file head read self.new.at)) }
        ensures any_moment { (head : Head) (list : List Stored) (stored : Stored) → self.old.closed ≡ false →
            HasGroup (shown D.Disk self.old.disk) head list → IsBatchOf made.now stored →
            LeavesOnly D.Disk self.old.disk self.new.disk (IsGroupBeforeOrAfter head list stored) }
        ensures in_doubt { (head : Head) (list : List Stored) (stored : Stored) → result ≡ Err DiskFault →
            HasGroup (shown D.Disk self.old.disk) head list → IsBatchOf made.now stored →
            Knows (shown D.Disk self.new.disk) (IsGroupBeforeOrAfter head list stored) }
        ensures closed { self.old.closed ≡ true → (result ≡ Err Closed) × (self.new ≡ self.old) }
        ensures refused { result ≡ Err Closed → self.old.closed ≡ true }
        ensures closes { OnErr result (self.new.closed ≡ true) }
        ensures goes_on { OnOk result (self.new.closed ≡ false) }
        ensures no_other { IfErr result (λ why. (why ≡ Closed) ⊎ (why ≡ DiskFault)) }
        ensures walked { IsSome self.old.end → IsSome self.new.end }
        ensures place { self.new.at ≡ self.old.at }
        ensures head { self.new.head ≡ self.old.head }
        ensures disk { ReportsFaults D.Disk (result ≡ Err DiskFault) self.old.disk self.new.disk }
    {
        self.journal.append(made.as_slice())
    }
}
