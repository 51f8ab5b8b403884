//! Journals: reads that fail and what a loss of power leaves then, journals that are closed, rewound or opened again in place, and the longest record.
ghost use Rattle.std.specs.Prelude.{◌≤◌, length, IsSome};

use crate::unseen::{UnseenDisk, after_crash, holding};
use group_terms::Octets;
use std::alloc::Global;
use tree_journal::{FormatRefusal, JournalRefusal};

type Journal = tree_journal::Journal<UnseenDisk>;

/// A call of a journal, and what it has to answer.
enum Call {
    /// A read; its answer, the body after it, and where reading goes on then.
    Read(Result<bool, JournalRefusal>, &'static [u8], u64),
    Place(u64),
    /// The body is emptied.
    Forget,
    Rewind,
    /// The journal is closed: a record is refused.
    Close,
    Reopen,
}

/// A file with one record, of the octets `ab`; the same without the gate after its record; one with the records `first` and of no octet; and one with
/// `first` alone.
const ONE: &[u8] = b"\x01GDOIJRNL\x01\0\0\0\x02ab\0";

const ONE_ALONE: &[u8] = b"\x01GDOIJRNL\x01\0\0\0\x02ab";

const TWO: &[u8] = b"\x01GDOIJRNL\x01\0\0\0\x05first\x01\0\0\0\0\0";

const FIRST_ALONE: &[u8] = b"\x01GDOIJRNL\x01\0\0\0\x05first\0";

/// Reads of the record `ab`, and at the gate after it with no body and with that one.
const AB: Call = Call::Read(Ok(true), b"ab", 16);

const AFTER_AB: Call = Call::Read(Ok(false), b"ab", 16);

const AFTER_NONE: Call = Call::Read(Ok(false), b"", 16);

const NO_SECOND: Call = Call::Read(Err(JournalRefusal::NotAJournal { at: 16 }), b"ab", 16);

/// Reads of the record `first`, at the gate after it, and of the record after it.
const FIRST: Call = Call::Read(Ok(true), b"first", 19);

const LAST: Call = Call::Read(Ok(false), b"first", 19);

const SECOND: Call = Call::Read(Ok(true), b"", 24);

const BOTH: &[Call] = &[FIRST, SECOND, Call::Read(Ok(false), b"", 24)];

/// The octets of a file and the calls of its disk that fail, what is asked of the journal on it, and what of the journal that is opened after a loss of
/// power. The octets are written by the first call; the opening syncs folder and file, and reads the beginning by the fourth one. The first record takes two
/// reads, of which the other one finds the end, and the records after it none.
type Case = (
    &'static [u8],
    &'static [u64],
    &'static [Call],
    &'static [Call],
);

static CASES: [Case; 7] = [
    // A fault at a read closes the journal, and loses nothing.
    (
        TWO,
        &[5],
        &[
            Call::Read(Err(JournalRefusal::DiskFault), b"", 9),
            Call::Read(Err(JournalRefusal::Closed), b"", 9),
        ],
        BOTH,
    ),
    (
        ONE_ALONE,
        &[7],
        &[AB, Call::Read(Err(JournalRefusal::DiskFault), b"ab", 16)],
        &[AB, NO_SECOND],
    ),
    // The first read gives both records and the end.
    (TWO, &[7], BOTH, BOTH),
    // A journal that is opened again reads the file anew.
    (
        FIRST_ALONE,
        &[9],
        &[
            FIRST,
            LAST,
            Call::Close,
            Call::Reopen,
            Call::Read(Err(JournalRefusal::DiskFault), b"first", 9),
        ],
        &[FIRST, LAST],
    ),
    // A closed journal is opened again at its first record.
    (
        FIRST_ALONE,
        &[],
        &[
            FIRST,
            LAST,
            Call::Close,
            Call::Reopen,
            FIRST,
            LAST,
            Call::Close,
            Call::Reopen,
            FIRST,
            LAST,
        ],
        &[FIRST, LAST],
    ),
    // It begins again with the first record. A read without a record leaves the body and the place.
    (
        ONE,
        &[],
        &[
            Call::Place(9),
            AB,
            AFTER_AB,
            AFTER_AB,
            Call::Forget,
            AFTER_NONE,
            Call::Rewind,
            Call::Place(9),
            AB,
            Call::Forget,
            AFTER_NONE,
            Call::Rewind,
        ],
        &[AB, AFTER_AB],
    ),
    (
        ONE_ALONE,
        &[],
        &[AB, NO_SECOND, NO_SECOND],
        &[AB, NO_SECOND],
    ),
];

#[test]
fn journals_go_as_they_should(rt: HostRuntime) {
    let alloc = rt.alloc();
    assert!(rt; are_cases(alloc) & (reads_back(alloc, &[7; 65_536]) == Some(true)));
}

fn are_cases(alloc: Global) -> bool {
    let mut holds = true;
    for case in &CASES {
        holds &= is_case(alloc, case);
    }
    holds
}

/// With each kind of a loss of power.
fn is_case(alloc: Global, case: &Case) -> bool {
    let mut holds = true;
    for choice in 0..8 {
        holds &= is_left(alloc, case, choice) == Some(true);
    }
    holds
}

/// Whether all goes as it should, and does so after a loss of power.
fn is_left(alloc: Global, case: &Case, choice: u64) -> Option<bool> {
    let (image, calls, asked, left) = case;
    let (goes_on, disk) = goes(alloc, holding(alloc, calls, image)?, asked);
    let (is_left, disk) = goes(alloc, after_crash(alloc, disk, choice)?, left);
    drop(disk);
    Some(goes_on & is_left)
}

/// Whether the journal on a disk is opened, and these calls of it go as they should; and the disk.
fn goes(alloc: Global, disk: UnseenDisk, asked: &[Call]) -> (bool, UnseenDisk) {
    match Journal::open(alloc, disk) {
        Ok(mut journal) => {
            let goes = all_go(alloc, &mut journal, asked);
            (goes, journal.into_disk())
        }
        Err(FormatRefusal { disk, .. }) => (false, disk),
    }
}

fn all_go(alloc: Global, journal: &mut Journal, asked: &[Call]) -> bool {
    let mut body = Octets::new(alloc);
    let mut holds = true;
    for call in asked {
        holds &= is_answered(journal, &mut body, call);
    }
    holds
}

fn is_answered(journal: &mut Journal, body: &mut Octets, call: &Call) -> bool {
    match call {
        Call::Read(answer, octets, place) => is_read(journal, body, *answer, octets, *place),
        Call::Place(place) => journal.place() == *place,
        Call::Forget => {
            body.clear();
            true
        }
        Call::Rewind => {
            journal.rewind();
            true
        }
        Call::Close => {
            journal.close();
            journal.append(b"second") == Err(JournalRefusal::Closed)
        }
        Call::Reopen => journal.reopen().is_ok(),
    }
}

/// Whether a read answers this, the body is this then, and reading goes on there.
fn is_read(
    journal: &mut Journal,
    body: &mut Octets,
    answer: Result<bool, JournalRefusal>,
    octets: &[u8],
    place: u64,
) -> bool {
    (journal.read_next(body) == answer) & (body.as_slice() == octets) & (journal.place() == place)
}

/// Whether a body is read as it was appended to a new journal.
fn reads_back(alloc: Global, body: &[u8]) -> Option<bool>
    requires { length body.now ≤ 65536 }
{
    let (is_read, disk) = reads_back_on(alloc, holding(alloc, &[], b"")?, body);
    drop(disk);
    Some(is_read)
}

/// The same of a new journal on a disk; and the disk.
fn reads_back_on(alloc: Global, disk: UnseenDisk, body: &[u8]) -> (bool, UnseenDisk)
    requires { length body.now ≤ 65536 }
{
    match Journal::format(alloc, disk) {
        Ok(mut journal) => {
            let is_read = is_read_back(alloc, &mut journal, body);
            (is_read, journal.into_disk())
        }
        Err(FormatRefusal { disk, .. }) => (false, disk),
    }
}

fn is_read_back(alloc: Global, journal: &mut Journal, long: &[u8]) -> bool
    requires few { length long.now ≤ 65536 }
    requires walked { IsSome journal.old.end }
{
    let mut body = Octets::new(alloc);
    let is_appended = journal.append(long).is_ok();
    is_appended & is_read(journal, &mut body, Ok(true), long, 65_550)
}
