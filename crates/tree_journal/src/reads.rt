//! Reading the records.
ghost use Rattle.std.specs.Prelude.{◌≡◌, ◌<◌, ◌≤◌, ◌^◌, ◌+◌, ◌∷◌, [], ℕ, List, length, min, nat_le, ◌-◌, ◌⊎◌, if◌then◌else◌, take, drop, true, false, None, Some, IsTrue, Ok, Err, IsErr, IfSome, IfOk, IfErr, OnOk, OnErr};
ghost use Rattle.gd_disk.specs.Disks.{Knows};
ghost use Rattle.gd_disk.specs.Moments.{shown, LeavesOnly, OnlyReads, ReportsFaults};
ghost use Rattle.tree_journal.specs.Private.Found.{IsAhead, IsFound, IsSeen};
ghost use Rattle.tree_journal.specs.Records.{IsRecordAt, bodies_from, with_front};
ghost use Rattle.tree_journal.specs.declared.reads.Found.TheVariants.{Record, Nothing};
ghost use Rattle.tree_journal.specs.declared.refusals.JournalRefusal.TheVariants.{Closed, DiskFault, NotAJournal, NoMemory as OutOfMemory};

use crate::journals::{Ahead, Journal, PIECE};
use crate::refusals::JournalRefusal;
use gd_disk::{Disk, Failed};
use group_terms::{NoMemory, Octets};
use journal_gates::{Head, head_in};

/// A commit mark and a length.
const HEAD: usize = 5;

/// No file has octets from this place on.
const FAR: u64 = 1 << 62;

/// What is at a place of a file.
#[derive(Clone, Copy)]
pub(crate) enum Found {
    /// A set commit mark, and a whole record.
    Record,
    /// A clear commit mark.
    End,
    /// Neither; or too few octets were looked at.
    Nothing,
}

impl<D: Disk> Journal<D> {
    /// Reads the next record into `body`; false at the clear commit mark, after which records can be appended. `body` is as it was unless a record was
    /// read.
    ///
    /// `Closed` after a fault of the disk, `DiskFault`, `NoMemory` for the body, and `NotAJournal` at a commit mark that is missing, or at a
    /// set one that no whole record follows.
    pub fn read_next(&mut self, body: &mut Octets) -> Result<bool, JournalRefusal>
        ensures whole { result ≡ Ok true → Knows (shown D.Disk self.old.disk) (λ file. IsRecordAt file self.old.at body.new) }
        ensures ahead { result ≡ Ok true → Knows (shown D.Disk self.old.disk)
            (λ file. bodies_from file self.old.at ≡ with_front (body.new ∷ []) (bodies_from file self.new.at)) }
        ensures ended { result ≡ Ok false → Knows (shown D.Disk self.old.disk) (λ file. bodies_from file self.old.at ≡ Ok []) }
        ensures broken { IfErr result (λ why. (at : ℕ) → why ≡ NotAJournal at →
            (at ≡ self.old.at) × Knows (shown D.Disk self.old.disk) (λ file. bodies_from file self.old.at ≡ Err at)) }
        ensures memory { result ≡ Err OutOfMemory → Knows (shown D.Disk self.old.disk)
            (λ file. (body : List ℕ) × IsRecordAt file self.old.at body) }
        ensures short { result ≡ Ok true → length body.new ≤ 65536 }
        ensures near { result ≡ Ok true → self.old.at < 2 ^ 62 }
        ensures moved { result ≡ Ok true → self.new.at ≡ self.old.at + 5 + length body.new }
        ensures stays { (result ≡ Ok true → ⊥) → (self.new.at ≡ self.old.at) × (body.new ≡ body.old) }
        ensures walked { result ≡ Ok false → self.new.end ≡ Some self.old.at }
        ensures end { (result ≡ Ok false → ⊥) → self.new.end ≡ self.old.end }
        ensures same { shown D.Disk self.new.disk ≡ shown D.Disk self.old.disk }
        ensures any_moment { self.old.closed ≡ false → Knows (shown D.Disk self.old.disk)
            (λ file. LeavesOnly D.Disk self.old.disk self.new.disk (λ c. c ≡ file)) }
        ensures closed { self.old.closed ≡ true → (result ≡ Err Closed) × (self.new ≡ self.old) }
        ensures refused { result ≡ Err Closed → self.old.closed ≡ true }
        ensures closes { result ≡ Err DiskFault → self.new.closed ≡ true }
        ensures goes_on { (result ≡ Err DiskFault → ⊥) → self.new.closed ≡ self.old.closed }
        ensures disk { ReportsFaults D.Disk (result ≡ Err DiskFault) self.old.disk self.new.disk }
    {
        if !self.peek(body)? {
            return Ok(false);
        }
        self.pass(body.as_slice());
        Ok(true)
    }

    /// Like `read_next`, but does not advance.
    pub fn peek(&mut self, body: &mut Octets) -> Result<bool, JournalRefusal>
        ensures whole { result ≡ Ok true → Knows (shown D.Disk self.old.disk) (λ file. IsRecordAt file self.old.at body.new) }
        ensures ended { result ≡ Ok false → Knows (shown D.Disk self.old.disk) (λ file. bodies_from file self.old.at ≡ Ok []) }
        ensures broken { IfErr result (λ why. (at : ℕ) → why ≡ NotAJournal at →
            (at ≡ self.old.at) × Knows (shown D.Disk self.old.disk) (λ file. bodies_from file self.old.at ≡ Err at)) }
        ensures memory { result ≡ Err OutOfMemory → Knows (shown D.Disk self.old.disk)
            (λ file. (body : List ℕ) × IsRecordAt file self.old.at body) }
        ensures short { result ≡ Ok true → length body.new ≤ 65536 }
        ensures near { result ≡ Ok true → self.old.at < 2 ^ 62 }
        ensures place { self.new.at ≡ self.old.at }
        ensures kept { (result ≡ Ok true → ⊥) → body.new ≡ body.old }
        ensures walked { result ≡ Ok false → self.new.end ≡ Some self.old.at }
        ensures end { (result ≡ Ok false → ⊥) → self.new.end ≡ self.old.end }
        ensures same { shown D.Disk self.new.disk ≡ shown D.Disk self.old.disk }
        ensures any_moment { self.old.closed ≡ false → Knows (shown D.Disk self.old.disk)
            (λ file. LeavesOnly D.Disk self.old.disk self.new.disk (λ c. c ≡ file)) }
        ensures closed { self.old.closed ≡ true → (result ≡ Err Closed) × (self.new ≡ self.old) }
        ensures refused { result ≡ Err Closed → self.old.closed ≡ true }
        ensures closes { result ≡ Err DiskFault → self.new.closed ≡ true }
        ensures goes_on { (result ≡ Err DiskFault → ⊥) → self.new.closed ≡ self.old.closed }
        ensures disk { ReportsFaults D.Disk (result ≡ Err DiskFault) self.old.disk self.new.disk }
    {
        if self.closed {
            return Err(JournalRefusal::Closed);
        }
        match self.next(body)? {
            Found::Record => Ok(true),
            Found::End => {
                self.end = Some(self.at);
                Ok(false)
            }
            Found::Nothing => Err(JournalRefusal::NotAJournal { at: self.at }),
        }
    }

    /// Goes on after the record with this body, which is the next one.
    pub fn pass(&mut self, body: &[u8])
        requires there { Knows (shown D.Disk self.old.disk) (λ file. IsRecordAt file self.old.at body.now) }
        requires near { self.old.at < 2 ^ 62 }
        requires short { length body.now ≤ 65536 }
        ensures moved { self.new ≡ record self.old { at = self.old.at + 5 + length body.now } }
        ensures ahead { Knows (shown D.Disk self.old.disk)
            (λ file. bodies_from file self.old.at ≡ with_front (body.now ∷ []) (bodies_from file (self.old.at + 5 + length body.now))) }
    {
        self.at += (HEAD + body.len()) as u64;
    }

    /// What is at the place where reading goes on, which stays; the body of a record is put in place of the one before.
    fn next(&mut self, body: &mut Octets) -> Result<Found, JournalRefusal>
        requires { self.old.closed ≡ false }
        ensures found { IfOk result (λ found. Knows (shown D.Disk self.old.disk) (λ file. IsFound file self.old.at body.new found)) }
        ensures memory { result ≡ Err OutOfMemory → Knows (shown D.Disk self.old.disk)
            (λ file. (body : List ℕ) × IsRecordAt file self.old.at body) }
        ensures short { result ≡ Ok Record → length body.new ≤ 65536 }
        ensures kept { (result ≡ Ok Record → ⊥) → body.new ≡ body.old }
        ensures far { 2 ^ 62 ≤ self.old.at → IfOk result (λ found. found ≡ Nothing) }
        ensures same { shown D.Disk self.new.disk ≡ shown D.Disk self.old.disk }
        ensures any_moment { Knows (shown D.Disk self.old.disk) (λ file. LeavesOnly D.Disk self.old.disk self.new.disk (λ c. c ≡ file)) }
        ensures ok { (result ≡ Err DiskFault → ⊥) → self.new ≡ record self.old { disk = self.new.disk } }
        ensures closes { result ≡ Err DiskFault → self.new ≡ record self.old { disk = self.new.disk; closed = true } }
        ensures no_other { IfErr result (λ why. (why ≡ DiskFault) ⊎ (why ≡ OutOfMemory)) }
        ensures disk { ReportsFaults D.Disk (result ≡ Err DiskFault) self.old.disk self.new.disk }
    {
        let found = found_at(
            &mut self.disk,
            self.at,
            self.piece.as_mut_slice(),
            &mut self.ahead,
            body,
        );
        if matches!(found, Err(JournalRefusal::DiskFault)) {
            self.closed = true;
        }
        found
    }
}

/// What is at a place of a file, by what was read ahead into a room, or else by what is read from there on: `DiskFault`, and `NoMemory` for a body.
fn found_at<D: Disk>(
    disk: &mut D,
    at: u64,
    room: &mut [u8],
    ahead: &mut Ahead,
    body: &mut Octets,
) -> Result<Found, JournalRefusal>
    requires room { length room.old ≡ 65541 }
    requires count { ahead.old.count ≤ 65541 }
    requires ahead { Knows (shown D.Disk disk.old) (IsAhead room.old ahead.old) }
    ensures found { IfOk result (λ found. Knows (shown D.Disk disk.old) (λ file. IsFound file at body.new found)) }
    ensures memory { result ≡ Err OutOfMemory → Knows (shown D.Disk disk.old) (λ file. (body : List ℕ) × IsRecordAt file at body) }
    ensures short { result ≡ Ok Record → length body.new ≤ 65536 }
    ensures kept { (result ≡ Ok Record → ⊥) → body.new ≡ body.old }
    ensures far { 2 ^ 62 ≤ at → IfOk result (λ found. found ≡ Nothing) }
    ensures no_other { IfErr result (λ why. (why ≡ DiskFault) ⊎ (why ≡ OutOfMemory)) }
    ensures reads { OnlyReads D.Disk (result ≡ Err DiskFault) disk.old disk.new }
    ensures size { length room.new ≡ length room.old }
    ensures count { ahead.new.count ≤ 65541 }
    ensures ahead { Knows (shown D.Disk disk.old) (IsAhead room.new ahead.new) }
{
    match found_ahead(room, *ahead, at, body)? {
        Found::Record => Ok(Found::Record),
        Found::End => Ok(Found::End),
        Found::Nothing => found_further(disk, at, room, ahead, body),
    }
}

/// What is at a place, by what is read from there on.
fn found_further<D: Disk>(
    disk: &mut D,
    at: u64,
    room: &mut [u8],
    ahead: &mut Ahead,
    body: &mut Octets,
) -> Result<Found, JournalRefusal>
    requires { length room.old ≡ 65541 }
    ensures found { IfOk result (λ found. Knows (shown D.Disk disk.old) (λ file. IsFound file at body.new found)) }
    ensures memory { result ≡ Err OutOfMemory → Knows (shown D.Disk disk.old) (λ file. (body : List ℕ) × IsRecordAt file at body) }
    ensures short { result ≡ Ok Record → length body.new ≤ 65536 }
    ensures kept { (result ≡ Ok Record → ⊥) → body.new ≡ body.old }
    ensures far { 2 ^ 62 ≤ at → IfOk result (λ found. found ≡ Nothing) }
    ensures no_other { IfErr result (λ why. (why ≡ DiskFault) ⊎ (why ≡ OutOfMemory)) }
    ensures reads { OnlyReads D.Disk (result ≡ Err DiskFault) disk.old disk.new }
    ensures size { length room.new ≡ length room.old }
    ensures count { ahead.new.count ≤ 65541 }
    ensures ahead { Knows (shown D.Disk disk.old) (IsAhead room.new ahead.new) }
{
    let count = read_ahead(disk, at, room, ahead)?;
    Ok(found_in(&room[..count], body)?)
}

/// What is at a place, if what was read ahead shows it.
fn found_ahead(room: &[u8], ahead: Ahead, at: u64, body: &mut Octets) -> Result<Found, NoMemory>
    requires count { ahead.count ≤ length room.now }
    ensures seen { (file : List ℕ) → IsAhead room.now ahead file → IfOk result (IsSeen file at body.new) }
    ensures memory { (file : List ℕ) → IsAhead room.now ahead file → OnErr result ((body : List ℕ) × IsRecordAt file at body) }
    ensures short { result ≡ Ok Record → length body.new ≤ 65536 }
    ensures kept { (result ≡ Ok Record → ⊥) → body.new ≡ body.old }
    ensures far { 2 ^ 62 ≤ at → result ≡ Ok Nothing }
{
    if at < ahead.at || at >= FAR {
        return Ok(Found::Nothing);
    }
    let from = at - ahead.at;
    if from >= ahead.count as u64 {
        return Ok(Found::Nothing);
    }
    found_in(&room[from as usize..ahead.count], body)
}

/// Reads octets from a place on to the front of a room, until it is full or the file ends, and says how many.
fn read_ahead<D: Disk>(
    disk: &mut D,
    at: u64,
    room: &mut [u8],
    ahead: &mut Ahead,
) -> Result<usize, Failed>
    requires { length room.old ≡ 65541 }
    ensures octets { IfOk result (λ n. Knows (shown D.Disk disk.old) (λ file. take n room.new ≡ take 65541 (drop at file))) }
    ensures far { 2 ^ 62 ≤ at → IfOk result (λ n. n ≡ 0) }
    ensures reads { OnlyReads D.Disk (IsErr result) disk.old disk.new }
    ensures size { length room.new ≡ length room.old }
    ensures within { IfOk result (λ n. n ≤ 65541) }
    ensures count { ahead.new.count ≤ 65541 }
    ensures ahead { Knows (shown D.Disk disk.old) (IsAhead room.new ahead.new) }
{
    *ahead = Ahead::NONE;
    let count = read_front(disk, at, room, PIECE)?;
    *ahead = Ahead { at, count };
    Ok(count)
}

/// What the first octets at a commit mark show of what is there; `NoMemory` where there is none for a body.
fn found_in(octets: &[u8], body: &mut Octets) -> Result<Found, NoMemory>
    ensures seen { (file : List ℕ) (at n : ℕ) → octets.now ≡ take n (drop at file) → IfOk result (IsSeen file at body.new) }
    ensures found { (file : List ℕ) (at : ℕ) → octets.now ≡ take 65541 (drop at file) → IfOk result (IsFound file at body.new) }
    ensures memory { (file : List ℕ) (at n : ℕ) → octets.now ≡ take n (drop at file) →
        OnErr result ((body : List ℕ) × IsRecordAt file at body) }
    ensures short { result ≡ Ok Record → length body.new ≤ 65536 }
    ensures kept { (result ≡ Ok Record → ⊥) → body.new ≡ body.old }
    ensures none { length octets.now ≡ 0 → result ≡ Ok Nothing }
{
    let size = match head_in(&octets[..octets.len().min(HEAD)]) {
        Head::Open { size } => size,
        Head::Shut => return Ok(Found::End),
        Head::Broken => return Ok(Found::Nothing),
    };
    if octets.len() < HEAD + size {
        return Ok(Found::Nothing);
    }
    replace(body, &octets[HEAD..HEAD + size])?;
    Ok(Found::Record)
}

/// Puts octets in place of those of a text, which is as it was if out of memory for them.
fn replace(text: &mut Octets, octets: &[u8]) -> Result<(), NoMemory>
    ensures ok { OnOk result (text.new ≡ octets.now) }
    ensures err { OnErr result (text.new ≡ text.old) }
{
    text.extend(octets)?;
    let (front, _) = text.as_mut_slice().split_at_mut(octets.len());
    front.copy_from_slice(octets);
    text.truncate(octets.len());
    Ok(())
}

/// Reads octets from a place on to the front of a room, as many as are there but not more than `size`, and says how many.
pub(crate) fn read_front<D: Disk>(
    disk: &mut D,
    at: u64,
    room: &mut [u8],
    size: usize,
) -> Result<usize, Failed>
    requires { size ≤ length room.old }
    ensures octets { IfOk result (λ n. Knows (shown D.Disk disk.old) (λ file. take n room.new ≡ take size (drop at file))) }
    ensures count { IfOk result (λ n. n ≤ size) }
    ensures far { 2 ^ 62 ≤ at → IfOk result (λ n. n ≡ 0) }
    ensures whole { IfOk result (λ n. Knows (shown D.Disk disk.old) (λ file. n ≡ min size (length file - at))) }
    ensures reads { OnlyReads D.Disk (IsErr result) disk.old disk.new }
    ensures size { length room.new ≡ length room.old }
{
    disk.read(at, &mut room[..size])
}
