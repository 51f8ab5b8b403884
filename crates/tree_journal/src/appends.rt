//! Appending a record.
ghost use Rattle.std.specs.Prelude.{◌≡◌, ◌⊎◌, ◌≤◌, ◌++◌, [], ◌∷◌, ◌+◌, ◌^◌, ℕ, List, length, take, true, false, Some, Ok, Err, is_err, if◌then◌else◌, IsSome, IsErr, IfErr, OnOk, OnErr};
ghost use Rattle.gd_disk.specs.Disks.{Knows, Only, written};
ghost use Rattle.gd_disk.specs.Moments.{shown, LeavesOnly, ReportsFaults};
ghost use Rattle.tree_journal.specs.Crashes.{Opens, IsBeforeOrAfter};
ghost use Rattle.tree_journal.specs.Private.Fronts.{IsLast, IsReached, Stands};
ghost use Rattle.tree_journal.specs.Records.{AreRecordsFrom, IsRecordAt, records, record_text, bodies_from, is_named};
ghost use Rattle.tree_journal.specs.declared.refusals.JournalRefusal.TheVariants.{Closed, DiskFault};

use crate::journals::{Ahead, Journal};
use crate::refusals::JournalRefusal;
use byteorder::{BigEndian, ByteOrder};
use gd_disk::{Disk, Failed};
use journal_gates::{SHUT, write_gated};

impl<D: Disk> Journal<D> {
    /// Appends a record with a body of at most 65,536 octets. It takes no memory. A journal that was opened has to be read to its clear commit mark
    /// first.
    ///
    /// On an honest disk the record is there from Ok on, whatever crash comes. At `DiskFault` it is there whole or not at all, and the journal is
    /// closed: from then on each call answers `Closed`.
    pub fn append(&mut self, body: &[u8]) -> Result<(), JournalRefusal>
        requires few { length body.now ≤ 65536 }
        requires walked { self.old.closed ≡ false → IsSome self.old.end }
        ensures ok { (bodies : List (List ℕ)) → Opens (shown D.Disk self.old.disk) bodies →
            OnOk result (Opens (shown D.Disk self.new.disk) (bodies ++ body.now ∷ [])) }
        ensures durable { (bodies : List (List ℕ)) → Opens (shown D.Disk self.old.disk) bodies →
            OnOk result ((c : List ℕ) → D.may_leave self.new.disk c → records c ≡ Ok (bodies ++ body.now ∷ [])) }
        ensures any_moment { (bodies : List (List ℕ)) → self.old.closed ≡ false → Opens (shown D.Disk self.old.disk) bodies →
            LeavesOnly D.Disk self.old.disk self.new.disk (IsBeforeOrAfter bodies body.now) }
        ensures in_doubt { (bodies : List (List ℕ)) → result ≡ Err DiskFault → Opens (shown D.Disk self.old.disk) bodies →
            Knows (shown D.Disk self.new.disk) (IsBeforeOrAfter bodies body.now) }
        ensures ahead { (file now : List ℕ) (bodies : List (List ℕ)) → shown D.Disk self.old.disk ≡ Some file →
            shown D.Disk self.new.disk ≡ Some now → bodies_from file self.old.at ≡ Ok bodies →
            OnOk result (bodies_from now self.new.at ≡ Ok (bodies ++ body.now ∷ [])) }
        ensures before { (file now : List ℕ) (bodies : List (List ℕ)) (to : ℕ) → shown D.Disk self.old.disk ≡ Some file →
            shown D.Disk self.new.disk ≡ Some now → AreRecordsFrom file 9 bodies to → OnOk result (AreRecordsFrom now 9 bodies to) }
        ensures there { (file now : List ℕ) (end : ℕ) → shown D.Disk self.old.disk ≡ Some file →
            shown D.Disk self.new.disk ≡ Some now → self.old.end ≡ Some end → OnOk result (IsRecordAt now end body.now) }
        ensures named { OnOk result (Knows (shown D.Disk self.new.disk) (λ now. is_named now ≡ true)) }
        ensures octets { (file : List ℕ) (end : ℕ) → shown D.Disk self.old.disk ≡ Some file → self.old.end ≡ Some end →
            OnOk result (shown D.Disk self.new.disk ≡
            Some (written (written file (end + 1) (record_text body.now ++ 0 ∷ [])) end (1 ∷ []))) }
        ensures closed { self.old.closed ≡ true → (result ≡ Err Closed) × (self.new ≡ self.old) }
        ensures refused { result ≡ Err Closed → self.old.closed ≡ true }
        ensures closes { OnErr result (self.new.closed ≡ true) }
        ensures goes_on { OnOk result (self.new.closed ≡ false) }
        ensures no_other { IfErr result (λ why. (why ≡ Closed) ⊎ (why ≡ DiskFault)) }
        ensures walked { IsSome self.old.end → IsSome self.new.end }
        ensures end { (end : ℕ) → self.old.end ≡ Some end →
            self.new.end ≡ Some (if is_err result then end else end + 5 + length body.now) }
        ensures place { self.new.at ≡ self.old.at }
        ensures disk { ReportsFaults D.Disk (result ≡ Err DiskFault) self.old.disk self.new.disk }
    {
        if self.closed {
            return Err(JournalRefusal::Closed);
        }
        let gate = self.end.unwrap();
        self.ahead = Ahead::NONE;
        match write_record(&mut self.disk, gate, self.piece.as_mut_slice(), body) {
            Ok(()) => {
                self.end = Some(gate + 5 + body.len() as u64);
                Ok(())
            }
            Err(Failed) => {
                self.closed = true;
                Err(JournalRefusal::DiskFault)
            }
        }
    }
}

/// Writes a record over the clear commit mark at a place, and a clear commit mark after it. It is put together in a room first.
fn write_record<D: Disk>(
    disk: &mut D,
    gate: u64,
    room: &mut [u8],
    body: &[u8],
) -> Result<(), Failed>
    requires few { length body.now ≤ 65536 }
    requires fits { length room.old ≡ 65541 }
    requires near { gate ≤ 2 ^ 62 }
    requires last { Knows (shown D.Disk disk.old) (λ file. IsLast file gate) }
    requires durable { Knows (shown D.Disk disk.old) (λ file. Only file (D.may_leave disk.old)) }
    ensures far { OnOk result (gate + 5 + length body.now ≤ 2 ^ 62) }
    ensures octets { OnOk result (Knows (shown D.Disk disk.old) (λ file.
        shown D.Disk disk.new ≡ Some (written (written file (gate + 1) (record_text body.now ++ 0 ∷ [])) gate (1 ∷ [])))) }
    ensures ok { (bodies : List (List ℕ)) → Opens (shown D.Disk disk.old) bodies →
        OnOk result (Opens (shown D.Disk disk.new) (bodies ++ body.now ∷ [])) }
    ensures durable { OnOk result (Knows (shown D.Disk disk.new) (λ file. Only file (D.may_leave disk.new))) }
    ensures stands { (at : ℕ) → Knows (shown D.Disk disk.old) (λ file. IsReached file at) →
        OnOk result (Stands D.Disk disk.new at (Some (gate + 5 + length body.now))) }
    ensures ahead { (file now : List ℕ) (at : ℕ) (bodies : List (List ℕ)) → IsReached file at →
        shown D.Disk disk.old ≡ Some file → shown D.Disk disk.new ≡ Some now → bodies_from file at ≡ Ok bodies →
        OnOk result (bodies_from now at ≡ Ok (bodies ++ body.now ∷ [])) }
    ensures before { (file now : List ℕ) (at to : ℕ) (bodies : List (List ℕ)) → IsReached file at →
        shown D.Disk disk.old ≡ Some file → shown D.Disk disk.new ≡ Some now → AreRecordsFrom file at bodies to →
        OnOk result (AreRecordsFrom now at bodies to) }
    ensures there { (file now : List ℕ) → shown D.Disk disk.old ≡ Some file → shown D.Disk disk.new ≡ Some now →
        OnOk result (IsRecordAt now gate body.now) }
    ensures any_moment { (bodies : List (List ℕ)) → Opens (shown D.Disk disk.old) bodies →
        LeavesOnly D.Disk disk.old disk.new (IsBeforeOrAfter bodies body.now) }
    ensures in_doubt { (bodies : List (List ℕ)) → Opens (shown D.Disk disk.old) bodies →
        OnErr result (Knows (shown D.Disk disk.new) (IsBeforeOrAfter bodies body.now)) }
    ensures disk { ReportsFaults D.Disk (IsErr result) disk.old disk.new }
    ensures size { length room.new ≡ length room.old }
{
    put_together(room, body);
    write_gated(disk, gate, &room[..5 + body.len()])?;
    Ok(())
}

/// Puts a record after its commit mark, and a clear commit mark, together at the front of a room.
fn put_together(room: &mut [u8], body: &[u8])
    requires few { length body.now ≤ 65536 }
    requires fits { 5 + length body.now ≤ length room.old }
    ensures text { take (5 + length body.now) room.new ≡ record_text body.now ++ SHUT ∷ [] }
    ensures size { length room.new ≡ length room.old }
{
    let size = body.len();
    let (length, rest) = room.split_at_mut(4);
    BigEndian::write_u32(length, size as u32);
    let (front, gate) = rest.split_at_mut(size);
    front.copy_from_slice(body);
    gate[0] = SHUT;
}
