//! Disks over files in memory: calls that fail, a lock that another process has, and what a loss of power leaves.
ghost use Rattle.std.specs.Prelude.{◌≡◌, None};
ghost use Rattle.gd_disk.specs.Moments.{shown};

use crate::unseen::UnseenDisk;
use gd_disk::{Disk, MemDisk};
use std::alloc::Global;

/// A call of a disk.
pub(crate) enum Call {
    Write(u64, &'static [u8]),
    Cut(u64),
    Sync,
    /// A read at a place, how many octets it finds, and the room with them, which was filled with `-`.
    Read(u64, usize, &'static [u8; 8]),
    /// A read that fails.
    FailToRead,
}

/// Calls, with whether each succeeds. One past the end of a disk does not.
pub(crate) type Asked = &'static [(Call, bool)];

/// Whether calls go as they should, of a disk that exposes nothing.
pub(crate) fn go<D: Disk>(disk: &mut D, asked: &[(Call, bool)]) -> bool
    requires { (any : D) → shown D.Disk any ≡ None }
{
    let mut holds = true;
    for (call, is_done) in asked {
        holds &= done(disk, call) == *is_done;
    }
    holds
}

fn done<D: Disk>(disk: &mut D, call: &Call) -> bool
    requires { (any : D) → shown D.Disk any ≡ None }
{
    match call {
        Call::Write(at, octets) => disk.write_at(*at, octets).is_ok(),
        Call::Cut(to) => disk.cut(*to).is_ok(),
        Call::Sync => disk.sync().is_ok(),
        Call::Read(at, count, octets) => reads(disk, *at, *count, *octets),
        Call::FailToRead => disk.read(0, &mut [b'-'; 2]).is_err(),
    }
}

fn reads<D: Disk>(disk: &mut D, at: u64, count: usize, octets: &[u8]) -> bool {
    let mut room = [b'-'; 8];
    (disk.read(at, &mut room) == Ok(count)) & (room.as_slice() == octets)
}

/// Calls of a disk over a file in memory, and what a loss of power of some choices leaves after them.
struct Case {
    /// The most octets that a call of the file takes.
    most: usize,
    /// Whether another process has its lock.
    is_taken: bool,
    /// The calls that fail, of those that open, lock or list it.
    steps: &'static [u64],
    /// The others that fail.
    calls: &'static [u64],
    asked: Asked,
    left: &'static [(u64, &'static [u8])],
}

/// Two writes that are not synced.
const TWO_WRITES: Case = Case {
    most: 100,
    is_taken: false,
    steps: &[],
    calls: &[],
    asked: &[
        (Call::Write(0, b"abcdef"), true),
        (Call::Sync, true),
        (Call::Write(4, b"WXYZ"), true),
        (Call::Write(0, b"12"), true),
    ],
    left: &[
        (0, b"abcdef"),
        (1, b"12cdWXYZ"),
        (2, b"abcdWXYZ"),
        (3, b"1bcdWX"),
        (4, b"\xff\xffcd\xff\xff\xff\xff"),
        (5, b"12cdef"),
        (6, b"\0\0cd\0\0\0\0"),
        (8, b"abcdef"),
    ],
};

/// What a loss of power leaves.
static LOSSES: [Case; 7] = [
    TWO_WRITES,
    // The same two writes, synced.
    Case {
        most: 100,
        is_taken: false,
        steps: &[],
        calls: &[],
        asked: &[
            (Call::Write(0, b"abcdef"), true),
            (Call::Sync, true),
            (Call::Write(4, b"WXYZ"), true),
            (Call::Write(0, b"12"), true),
            (Call::Sync, true),
        ],
        left: &[
            (0, b"12cdWXYZ"),
            (1, b"12cdWXYZ"),
            (2, b"12cdWXYZ"),
            (3, b"12cdWXYZ"),
            (4, b"12cdWXYZ"),
            (5, b"12cdWXYZ"),
            (6, b"12cdWXYZ"),
            (7, b"12cdWXYZ"),
        ],
    },
    // A write that comes after an extension may survive where the extension is lost.
    Case {
        most: 100,
        is_taken: false,
        steps: &[],
        calls: &[],
        asked: &[
            (Call::Write(0, b"ab"), true),
            (Call::Sync, true),
            (Call::Write(2, b"cd"), true),
            (Call::Write(4, b"ef"), true),
        ],
        left: &[(3, b"abc\0e"), (5, b"ab\0\0ef")],
    },
    // A cut may be lost, or survive in part.
    Case {
        most: 100,
        is_taken: false,
        steps: &[],
        calls: &[],
        asked: &[
            (Call::Write(0, b"abcdef"), true),
            (Call::Sync, true),
            (Call::Cut(2), true),
        ],
        left: &[(0, b"abcdef"), (1, b"ab"), (3, b"abcd")],
    },
    // Nothing was synced: no file, or all of it.
    Case {
        most: 100,
        is_taken: false,
        steps: &[],
        calls: &[],
        asked: &[(Call::Write(0, b"abcdef"), true)],
        left: &[(0, b""), (1, b""), (8, b""), (9, b"abcdef")],
    },
    // The same, by two octets at a time: the last piece may survive alone.
    Case {
        most: 2,
        is_taken: false,
        steps: &[],
        calls: &[],
        asked: &[
            (Call::Write(0, b"abcdef"), true),
            (Call::Read(0, 6, b"abcdef--"), true),
        ],
        left: &[(0, b""), (9, b"abcdef"), (13, b"\0\0\0\0ef")],
    },
    // What was synced stays, and what came after it may be lost.
    Case {
        most: 2,
        is_taken: false,
        steps: &[],
        calls: &[],
        asked: &[
            (Call::Write(0, b"abcdef"), true),
            (Call::Sync, true),
            (Call::Cut(3), true),
        ],
        left: &[(0, b"abcdef"), (1, b"abc"), (8, b"abcdef")],
    },
];

/// Calls that fail, and what is left then.
static FAULTS: [Case; 6] = [
    // The file does not open at first: the next call tries again.
    Case {
        most: 100,
        is_taken: false,
        steps: &[1],
        calls: &[],
        asked: &[
            (Call::Write(0, b"ab"), false),
            (Call::Write(0, b"ab"), true),
            (Call::Sync, true),
        ],
        left: &[(0, b"ab")],
    },
    // Another process has its lock.
    Case {
        most: 100,
        is_taken: true,
        steps: &[],
        calls: &[],
        asked: &[
            (Call::Write(0, b"ab"), false),
            (Call::FailToRead, true),
            (Call::Sync, false),
            (Call::Cut(0), false),
        ],
        left: &[(0, b""), (9, b"")],
    },
    // Its folder cannot be synced: nothing goes on.
    Case {
        most: 100,
        is_taken: false,
        steps: &[3],
        calls: &[],
        asked: &[
            (Call::Write(0, b"ab"), true),
            (Call::Sync, false),
            (Call::Sync, false),
            (Call::Write(0, b"ab"), false),
            (Call::FailToRead, true),
        ],
        left: &[(0, b""), (9, b"ab")],
    },
    // The file cannot be synced: nothing goes on. (The third call is that of the folder.)
    Case {
        most: 100,
        is_taken: false,
        steps: &[],
        calls: &[3],
        asked: &[
            (Call::Write(0, b"ab"), true),
            (Call::Sync, false),
            (Call::Sync, false),
            (Call::Cut(0), false),
        ],
        left: &[(0, b""), (9, b"ab")],
    },
    // A write fails in its second piece, and the next one goes on.
    Case {
        most: 2,
        is_taken: false,
        steps: &[],
        calls: &[2],
        asked: &[
            (Call::Write(0, b"abcd"), false),
            (Call::Write(0, b"wxyz"), true),
            (Call::Sync, true),
        ],
        left: &[(0, b"wxyz")],
    },
    // A second sync waits for the file alone.
    Case {
        most: 100,
        is_taken: false,
        steps: &[4],
        calls: &[],
        asked: &[
            (Call::Write(0, b"ab"), true),
            (Call::Sync, true),
            (Call::Write(2, b"cd"), true),
            (Call::Sync, true),
        ],
        left: &[(0, b"abcd")],
    },
];

#[test]
fn disks_fail_and_keep_as_they_should(rt: HostRuntime) {
    assert!(rt; are_kept(rt.alloc()) & are_failed(rt.alloc()) & are_drawn(rt.alloc(), &TWO_WRITES));
}

fn are_kept(alloc: Global) -> bool {
    let mut holds = true;
    for case in &LOSSES {
        holds &= is_case(alloc, case);
    }
    holds
}

fn are_failed(alloc: Global) -> bool {
    let mut holds = true;
    for case in &FAULTS {
        holds &= is_case(alloc, case);
    }
    holds
}

fn is_case(alloc: Global, case: &Case) -> bool {
    let mut holds = true;
    for (choice, image) in case.left {
        holds &= leaves(alloc, case, *choice, image);
    }
    holds
}

/// Whether a loss of power leaves this.
fn leaves(alloc: Global, case: &Case, choice: u64, image: &[u8]) -> bool {
    match left(alloc, case, choice) {
        Some(disk) => disk.image() == image,
        None => false,
    }
}

/// What is left after the calls of a case, if they go as they should.
fn left(alloc: Global, case: &Case, choice: u64) -> Option<MemDisk> {
    let mut disk = UnseenDisk::planned(alloc, case.most, case.is_taken, case.steps, case.calls)?;
    let goes = go(&mut disk, case.asked);
    let left = disk.crashed(choice);
    if goes { left } else { None }
}

/// Whether two losses of power that draw octets leave what lies between the two writes, and of these different octets.
fn are_drawn(alloc: Global, case: &Case) -> bool {
    match (drawn(alloc, case, 7), drawn(alloc, case, 15)) {
        (Some(one), Some(other)) => one != other,
        _ => false,
    }
}

/// The octets around those that lie between the two writes, if a loss of power leaves these.
fn drawn(alloc: Global, case: &Case, choice: u64) -> Option<[u8; 6]> {
    match left(alloc, case, choice) {
        Some(disk) => around(disk.image()),
        None => None,
    }
}

fn around(image: &[u8]) -> Option<[u8; 6]> {
    match image {
        [a, b, b'c', b'd', w, x, y, z] => Some([*a, *b, *w, *x, *y, *z]),
        _ => None,
    }
}
