//! Making and opening a store.
ghost use Rattle.std.specs.Prelude.{◌≡◌, ◌⊎◌, ◌≤◌, [], ℕ, List, length, false, true, None, Some, Err, IfSome, IfNone, IfOk, IfErr, OnOk, OnErr};
ghost use Rattle.gd_disk.specs.Disks.{Knows, Only};
ghost use Rattle.gd_disk.specs.Moments.{shown, LeavesOnly, OnlyReads, ReportsFaults};
ghost use Rattle.group_records.specs.Records.{IsHeadOf};
ghost use Rattle.group_records.specs.declared.heads.Head.{Head};
ghost use Rattle.tree_journal.specs.Crashes.{FoundFault};
ghost use Rattle.tree_journal.specs.Records.{records};
ghost use Rattle.tree_journal.specs.declared.refusals.JournalRefusal.TheVariants.{Closed, DiskFault, NotAJournal, NoMemory as OutOfMemory};
ghost use Rattle.tree_store.specs.Groups.{HasGroup, IsGroup, IsGroupTo, HasNoHead, MakesGroup};
ghost use Rattle.tree_store.specs.Views.{store_disk};

use crate::stores::TreeStore;
use gd_disk::{Disk, a_crash_may_leave_nothing_or_all};
use group_records::{Head, a_written_record_is_read, prove_head_fits, read_head, write_head};
use group_terms::{NoMemory, Octets};
use std::alloc::Global;
use tree_journal::{FormatRefusal, Journal, JournalRefusal};

impl<D: Disk> TreeStore<D> {
    /// Makes the store of a group without a batch on a disk, whatever that held.
    ///
    /// `NoMemory` if out of memory for it, and `DiskFault` if the disk failed; either gives the disk back.
    pub fn create(alloc: Global, disk: D, head: &Head) -> Result<Self, FormatRefusal<D>>
        requires shallow { 1 ≤ head.now.depth }
        requires not_deep { head.now.depth ≤ 9 }
        requires limited { 1 ≤ head.now.limit }
        ensures made { IfOk result (λ store. Knows (shown D.Disk disk) (λ _. HasGroup (shown D.Disk store.disk) head.now [])) }
        ensures durable { IfOk result (λ store. Knows (shown D.Disk disk)
            (λ _. (c : List ℕ) → D.may_leave store.disk c → IsGroup c head.now [])) }
        ensures moments { Knows (shown D.Disk disk) (λ _. MakesGroup D.Disk head.now disk (store_disk result)) }
        ensures read { IfOk result (λ store. Knows (shown D.Disk disk)
            (λ _. Knows (shown D.Disk store.disk) (λ file. IsGroupTo file head.now [] store.at))) }
        ensures began { IfOk result (λ store. (store.head ≡ head.now) × (store.closed ≡ false) × (store.end ≡ Some store.at)) }
        ensures no_other { IfErr result (λ refused. (refused.why ≡ DiskFault) ⊎ (refused.why ≡ OutOfMemory)) }
        ensures untouched { IfErr result (λ refused. refused.why ≡ OutOfMemory → refused.disk ≡ disk) }
        ensures disk { ReportsFaults D.Disk (FoundFault result) disk (store_disk result) }
    {
        a_crash_may_leave_nothing_or_all();
        let made = match head_record(alloc, head) {
            Ok(made) => made,
            Err(NoMemory) => return Err(no_memory(disk)),
        };
        let mut journal = Journal::format(alloc, disk)?;
        match journal.append(made.as_slice()) {
            Ok(()) => {
                journal.to_end();
                Ok(TreeStore {
                    journal,
                    head: *head,
                    body: Octets::new(alloc),
                })
            }
            Err(why) => Err(FormatRefusal {
                why,
                disk: journal.into_disk(),
            }),
        }
    }

    /// Opens the store on a disk, to be read from its first batch.
    ///
    /// `NoMemory` if out of memory for its head, `DiskFault` if the disk failed, and `NotAJournal` at 0 or 9 where the file has no head of a group;
    /// each gives the disk back.
    pub fn open(alloc: Global, disk: D) -> Result<Self, FormatRefusal<D>>
        ensures read { IfOk result (λ store. Knows (shown D.Disk disk) (λ file. IsGroupTo file store.head [] store.at)) }
        ensures began { IfOk result (λ store. (store.closed ≡ false) × (store.end ≡ None)) }
        ensures broken { IfErr result (λ refused. (at : ℕ) → refused.why ≡ NotAJournal at →
            ((at ≡ 0) × Knows (shown D.Disk disk) (λ file. records file ≡ Err 0))
            ⊎ ((at ≡ 9) × Knows (shown D.Disk disk) (λ file. HasNoHead file))) }
        ensures only { IfErr result (λ refused. (at : ℕ) → refused.why ≡ NotAJournal at →
            Knows (shown D.Disk disk) (λ file. Only file (D.may_leave refused.disk))) }
        ensures no_other { IfErr result (λ refused. refused.why ≡ Closed → ⊥) }
        ensures reads { OnlyReads D.Disk (FoundFault result) disk (store_disk result) }
    {
        let mut journal = Journal::open(alloc, disk)?;
        let mut body = Octets::new(alloc);
        match read_first(&mut journal, &mut body) {
            Ok(head) => Ok(TreeStore {
                journal,
                head,
                body,
            }),
            Err(why) => Err(FormatRefusal {
                why,
                disk: journal.into_disk(),
            }),
        }
    }

    /// Opens the store on the disk again, closed or not, to be read from its first batch.
    ///
    /// `NoMemory` if out of memory for its head, `DiskFault` if the disk failed, and `NotAJournal` at 0 or 9 where the file has no head of a group.
    /// After a refusal the store is closed, until it is opened again.
    pub fn reopen(&mut self) -> Result<(), JournalRefusal>
        ensures read { OnOk result (Knows (shown D.Disk self.old.disk) (λ file. IsGroupTo file self.new.head [] self.new.at)) }
        ensures began { OnOk result ((self.new.closed ≡ false) × (self.new.end ≡ None)) }
        ensures broken { IfErr result (λ why. (at : ℕ) → why ≡ NotAJournal at →
            ((at ≡ 0) × Knows (shown D.Disk self.old.disk) (λ file. records file ≡ Err 0))
            ⊎ ((at ≡ 9) × Knows (shown D.Disk self.old.disk) (λ file. HasNoHead file))) }
        ensures closes { OnErr result (self.new.closed ≡ true) }
        ensures kept { OnErr result (self.new.head ≡ self.old.head) }
        ensures durable { (result ≡ Err DiskFault → ⊥) →
            Knows (shown D.Disk self.new.disk) (λ file. Only file (D.may_leave self.new.disk)) }
        ensures no_other { result ≡ Err Closed → ⊥ }
        ensures reads { OnlyReads D.Disk (result ≡ Err DiskFault) self.old.disk self.new.disk }
    {
        self.journal.reopen()?;
        match read_first(&mut self.journal, &mut self.body) {
            Ok(head) => {
                self.head = head;
                Ok(())
            }
            Err(why) => {
                self.journal.close();
                Err(why)
            }
        }
    }
}

/// The record of a head; `NoMemory` if out of memory for it.
fn head_record(alloc: Global, head: &Head) -> Result<Octets, NoMemory>
    requires shallow { 1 ≤ head.now.depth }
    requires not_deep { head.now.depth ≤ 9 }
    requires limited { 1 ≤ head.now.limit }
    ensures made { IfOk result (λ made. IsHeadOf made head.now) }
    ensures few { IfOk result (λ made. length made ≤ 65536) }
{
    prove_head_fits(head);
    a_written_record_is_read();
    Ok(write_head(alloc, head)?)
}

/// Reads the head, which is the first record. `NoMemory` if out of memory for that, `DiskFault` if the disk failed, and `NotAJournal` at 9 where there is
/// no head.
fn read_first<D: Disk>(journal: &mut Journal<D>, body: &mut Octets) -> Result<Head, JournalRefusal>
    requires began { journal.old ≡ record { disk = journal.old.disk; closed = false; at = 9; end = None } }
    ensures read { IfOk result (λ head. Knows (shown D.Disk journal.old.disk) (λ file. IsGroupTo file head [] journal.new.at)) }
    ensures shallow { IfOk result (λ head. 1 ≤ head.depth) }
    ensures not_deep { IfOk result (λ head. head.depth ≤ 9) }
    ensures limited { IfOk result (λ head. 1 ≤ head.limit) }
    ensures goes_on { IfOk result (λ _. (journal.new.closed ≡ false) × (journal.new.end ≡ None)) }
    ensures broken { IfErr result (λ why. (at : ℕ) → why ≡ NotAJournal at →
        (at ≡ 9) × Knows (shown D.Disk journal.old.disk) (λ file. HasNoHead file)) }
    ensures same { shown D.Disk journal.new.disk ≡ shown D.Disk journal.old.disk }
    ensures any_moment { Knows (shown D.Disk journal.old.disk) (λ file. LeavesOnly D.Disk journal.old.disk journal.new.disk (λ c. c ≡ file)) }
    ensures only { Knows (shown D.Disk journal.old.disk) (λ file. Only file (D.may_leave journal.new.disk)) }
    ensures no_other { IfErr result (λ why. why ≡ Closed → ⊥) }
    ensures disk { ReportsFaults D.Disk (result ≡ Err DiskFault) journal.old.disk journal.new.disk }
{
    journal.prove_at_rest();
    let at = journal.place();
    if !journal.read_next(body)? {
        return Err(JournalRefusal::NotAJournal { at });
    }
    match head_in(body.as_slice()) {
        Some(head) => Ok(head),
        None => Err(JournalRefusal::NotAJournal { at }),
    }
}

/// The head in a record; `None` where that is none.
fn head_in(body: &[u8]) -> Option<Head>
    requires { length body.now ≤ 65536 }
    ensures read { IfSome result (λ head. IsHeadOf body.now head) }
    ensures none { IfNone result ((head : Head) → IsHeadOf body.now head → ⊥) }
    ensures shallow { IfSome result (λ head. 1 ≤ head.depth) }
    ensures not_deep { IfSome result (λ head. head.depth ≤ 9) }
    ensures limited { IfSome result (λ head. 1 ≤ head.limit) }
{
    match read_head(body) {
        Ok(head) => Some(head),
        Err(_) => None,
    }
}

fn no_memory<D: Disk>(disk: D) -> FormatRefusal<D>
    ensures { result ≡ record { why = OutOfMemory; disk = disk } }
{
    FormatRefusal {
        why: JournalRefusal::NoMemory,
        disk,
    }
}
