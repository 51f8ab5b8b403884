//! Making and opening a journal.
ghost use Rattle.std.specs.Prelude.{◌≡◌, ◌⊎◌, ◌≤◌, [], ◌∷◌, ◌++◌, ℕ, List, length, false, true, None, Some, Ok, Err, IsErr, IfOk, IfErr, OnOk, OnErr};
ghost use Rattle.gd_disk.specs.Disks.{Knows, Only};
ghost use Rattle.gd_disk.specs.Moments.{shown, LeavesOnly, OnlyReads, ReportsFaults};
ghost use Rattle.tree_journal.specs.Crashes.{disk_in, FoundFault, Opens, IsCutOf, MakesJournal};
ghost use Rattle.tree_journal.specs.Records.{records, bodies_from, is_named, front_text};
ghost use Rattle.tree_journal.specs.declared.refusals.JournalRefusal.TheVariants.{DiskFault, NotAJournal, NoMemory as OutOfMemory};

use crate::journals::{Ahead, FIRST, Journal, room};
use crate::reads::read_front;
use crate::refusals::{FormatRefusal, JournalRefusal};
use gd_disk::{Disk, Failed, a_crash_may_leave_nothing_or_all};
use group_terms::NoMemory;
use journal_gates::{SHUT, write_gated, write_through};
use std::alloc::Global;

/// What a journal begins with: a set commit mark and its name.
const BEGINNING: [u8; 9] = *b"\x01GDOIJRNL";

/// The name of a journal, and the clear commit mark after it.
const NAME: [u8; 9] = *b"GDOIJRNL\0";

impl<D: Disk> Journal<D> {
    /// Makes an empty journal of a disk, whatever it held. It gives the disk back where that fails (`DiskFault`), or where there is no memory.
    pub fn format(alloc: Global, disk: D) -> Result<Self, FormatRefusal<D>>
        ensures empty { IfOk result (λ journal. Knows (shown D.Disk disk) (λ _. Opens (shown D.Disk journal.disk) [])) }
        ensures octets { IfOk result (λ journal. Knows (shown D.Disk disk)
            (λ _. shown D.Disk journal.disk ≡ Some (front_text [] ++ 0 ∷ []))) }
        ensures moments { Knows (shown D.Disk disk) (λ _. MakesJournal D.Disk disk (disk_in result)) }
        ensures began { IfOk result (λ journal. journal ≡ record { disk = journal.disk; closed = false; at = 9; end = Some 9 }) }
        ensures untouched { IfErr result (λ refused. refused.why ≡ OutOfMemory → refused.disk ≡ disk) }
        ensures no_other { IfErr result (λ refused. (refused.why ≡ DiskFault) ⊎ (refused.why ≡ OutOfMemory)) }
        ensures disk { ReportsFaults D.Disk (FoundFault result) disk (disk_in result) }
    {
        a_crash_may_leave_nothing_or_all();
        let mut disk = disk;
        let Ok(piece) = room(alloc) else {
            return Err(FormatRefusal {
                why: JournalRefusal::NoMemory,
                disk,
            });
        };
        match begin_file(&mut disk) {
            Ok(()) => Ok(Journal {
                disk,
                closed: false,
                at: FIRST,
                end: Some(FIRST),
                piece,
                ahead: Ahead::NONE,
            }),
            Err(Failed) => Err(FormatRefusal {
                why: JournalRefusal::DiskFault,
                disk,
            }),
        }
    }

    /// Opens the journal on a disk, to be read from its first record. It gives the disk back where that fails (`DiskFault`), where there is no
    /// memory, and where the file does not begin as a journal (`NotAJournal` at 0).
    pub fn open(alloc: Global, disk: D) -> Result<Self, FormatRefusal<D>>
        ensures named { IfOk result (λ journal. Knows (shown D.Disk disk) (λ file. records file ≡ bodies_from file 9)) }
        ensures other { IfErr result (λ refused. (at : ℕ) → refused.why ≡ NotAJournal at →
            (at ≡ 0) × Knows (shown D.Disk disk) (λ file. records file ≡ Err 0)) }
        ensures began { IfOk result (λ journal. journal ≡ record { disk = journal.disk; closed = false; at = 9; end = None }) }
        ensures untouched { IfErr result (λ refused. refused.why ≡ OutOfMemory → refused.disk ≡ disk) }
        ensures no_other { IfErr result (λ refused. (refused.why ≡ DiskFault) ⊎ ((refused.why ≡ NotAJournal 0) ⊎ (refused.why ≡ OutOfMemory))) }
        ensures only { IfErr result (λ refused. refused.why ≡ NotAJournal 0 →
            Knows (shown D.Disk disk) (λ file. Only file (D.may_leave refused.disk))) }
        ensures reads { OnlyReads D.Disk (FoundFault result) disk (disk_in result) }
    {
        let Ok(piece) = room(alloc) else {
            return Err(FormatRefusal {
                why: JournalRefusal::NoMemory,
                disk,
            });
        };
        let mut journal = Journal {
            disk,
            closed: true,
            at: FIRST,
            end: None,
            piece,
            ahead: Ahead::NONE,
        };
        match journal.reopen() {
            Ok(()) => Ok(journal),
            Err(why) => Err(FormatRefusal {
                why,
                disk: journal.into_disk(),
            }),
        }
    }

    /// Opens the journal on the disk again, closed or not, to be read from its first record. It takes no memory.
    ///
    /// `DiskFault`, and `NotAJournal` at 0 where the file does not begin as a journal. After a refusal the journal is closed, until it is opened
    /// again.
    pub fn reopen(&mut self) -> Result<(), JournalRefusal>
        ensures named { OnOk result (Knows (shown D.Disk self.old.disk) (λ file. records file ≡ bodies_from file 9)) }
        ensures other { IfErr result (λ why. (at : ℕ) → why ≡ NotAJournal at →
            (at ≡ 0) × Knows (shown D.Disk self.old.disk) (λ file. records file ≡ Err 0)) }
        ensures began { OnOk result (self.new ≡ record { disk = self.new.disk; closed = false; at = 9; end = None }) }
        ensures closes { OnErr result (self.new ≡ record self.old { disk = self.new.disk; closed = true }) }
        ensures no_other { IfErr result (λ why. (why ≡ DiskFault) ⊎ (why ≡ NotAJournal 0)) }
        ensures durable { (result ≡ Err DiskFault → ⊥) →
            Knows (shown D.Disk self.new.disk) (λ file. Only file (D.may_leave self.new.disk)) }
        ensures reads { OnlyReads D.Disk (result ≡ Err DiskFault) self.old.disk self.new.disk }
    {
        self.closed = true;
        self.ahead = Ahead::NONE;
        match read_name(&mut self.disk, self.piece.as_mut_slice()) {
            Ok(true) => {
                self.closed = false;
                self.at = FIRST;
                self.end = None;
                Ok(())
            }
            Ok(false) => Err(JournalRefusal::NotAJournal { at: 0 }),
            Err(Failed) => Err(JournalRefusal::DiskFault),
        }
    }
}

/// Writes a clear commit mark and nothing else, and after that the name, whose commit mark is set last.
fn begin_file<D: Disk>(disk: &mut D) -> Result<(), Failed>
    ensures octets { OnOk result (Knows (shown D.Disk disk.old) (λ _. shown D.Disk disk.new ≡ Some (front_text [] ++ 0 ∷ []))) }
    ensures durable { OnOk result (Knows (shown D.Disk disk.new) (λ file. Only file (D.may_leave disk.new))) }
    ensures moments { Knows (shown D.Disk disk.old) (λ _. MakesJournal D.Disk disk.old disk.new) }
    ensures disk { ReportsFaults D.Disk (IsErr result) disk.old disk.new }
{
    shut_file(disk)?;
    write_gated(disk, 0, &NAME)?;
    Ok(())
}

/// Empties the file, and writes a clear commit mark.
fn shut_file<D: Disk>(disk: &mut D) -> Result<(), Failed>
    ensures octets { OnOk result (Knows (shown D.Disk disk.old) (λ _. shown D.Disk disk.new ≡ Some (0 ∷ []))) }
    ensures durable { OnOk result (Knows (shown D.Disk disk.new) (λ file. Only file (D.may_leave disk.new))) }
    ensures any_moment { Knows (shown D.Disk disk.old) (λ _. LeavesOnly D.Disk disk.old disk.new (IsCutOf (D.may_leave disk.old))) }
    ensures disk { ReportsFaults D.Disk (IsErr result) disk.old disk.new }
{
    a_crash_may_leave_nothing_or_all();
    disk.cut(0)?;
    write_through(disk, 0, &[SHUT])?;
    Ok(())
}

/// Whether the file begins as a journal, which is looked at once all is on the device.
fn read_name<D: Disk>(disk: &mut D, room: &mut [u8]) -> Result<bool, Failed>
    requires { 9 ≤ length room.old }
    ensures named { IfOk result (λ yes. Knows (shown D.Disk disk.old) (λ file. yes ≡ is_named file)) }
    ensures durable { OnOk result (Knows (shown D.Disk disk.new) (λ file. Only file (D.may_leave disk.new))) }
    ensures reads { OnlyReads D.Disk (IsErr result) disk.old disk.new }
    ensures size { length room.new ≡ length room.old }
{
    disk.sync()?;
    let count = read_front(disk, 0, room, BEGINNING.len())?;
    Ok(&room[..count] == BEGINNING.as_slice())
}
