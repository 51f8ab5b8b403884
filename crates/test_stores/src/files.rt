//! Disks in files of the operating system.
ghost use Rattle.std.specs.Prelude.{◌≡◌, None};
ghost use Rattle.gd_disk.specs.Moments.{shown};

use crate::disks::{Asked, Call, go};
use file_disks::FileDisk;
use gd_disk::Disk;
use std::alloc::Global;
use std::fs;

const FOLDER: &str = "gd_disk_test";

const PATH: &str = "gd_disk_test/disk";

const SHARED: &str = "gd_disk_test/shared";

/// What is written, and what is read when the file is opened again.
const WRITES: Asked = &[
    (Call::Write(0, b"abcdef"), true),
    (Call::Write(2, b"XY"), true),
    (Call::Cut(5), true),
    (Call::Sync, true),
];

const READS: Asked = &[
    (Call::Read(1, 4, b"bXYe----"), true),
    (Call::Read(4, 1, b"e-------"), true),
    (Call::Read(5, 0, b"--------"), true),
];

/// The file does not open, and each call fails.
const NEVER_OPENS: Asked = &[
    (Call::FailToRead, true),
    (Call::Cut(0), false),
    (Call::Sync, false),
];

const TAKES_NOTHING: Asked = &[(Call::Write(0, b"abc"), false)];

/// The other disk has its file again.
const FREE: Asked = &[(Call::Write(0, b"xy"), true), (Call::Sync, true)];

/// A path, what is asked of a disk in its file, then of another one in the shared file, and then of the first one again.
type Case = (&'static str, Asked, Asked, Asked);

/// One after another: devices, a folder that is not there, a folder in place of a file, and last the shared file: the other disk is refused as long as the
/// first one has it.
static CASES: [Case; 8] = [
    (PATH, WRITES, &[], &[]),
    (PATH, READS, &[], &[]),
    ("/dev/null", NEVER_OPENS, &[], &[]),
    ("no_such_folder/disk", NEVER_OPENS, &[], &[]),
    ("no_such_folder/disk", TAKES_NOTHING, &[], &[]),
    (".", TAKES_NOTHING, &[], &[]),
    ("/dev/full", TAKES_NOTHING, &[], &[]),
    (
        SHARED,
        WRITES,
        NEVER_OPENS,
        &[(Call::Read(0, 5, b"abXYe---"), true)],
    ),
];

#[test]
fn disks_in_files_go_as_they_should(rt: HostRuntime) {
    let _ = fs::remove_dir_all(&rt, FOLDER);
    let is_made = fs::create_dir(&rt, FOLDER).is_ok();
    let go = are_cases(rt.alloc(), &rt);
    let is_removed = fs::remove_dir_all(&rt, FOLDER).is_ok();
    assert!(rt; is_made & go & is_removed);
}

/// Each case goes as it should, and the other disk after them.
fn are_cases(alloc: Global, rt: &HostRuntime) -> bool {
    match FileDisk::new(alloc, rt, SHARED) {
        Ok(mut other) => all_go(alloc, rt, &mut other) & go(&mut other, FREE),
        Err(_) => false,
    }
}

fn all_go<D: Disk>(alloc: Global, rt: &HostRuntime, other: &mut D) -> bool
    requires { (any : D) → shown D.Disk any ≡ None }
{
    let mut holds = true;
    for case in &CASES {
        holds &= is_case(alloc, rt, case, other);
    }
    holds
}

fn is_case<D: Disk>(alloc: Global, rt: &HostRuntime, case: &Case, other: &mut D) -> bool
    requires { (any : D) → shown D.Disk any ≡ None }
{
    let (path, before, others, after) = case;
    match FileDisk::new(alloc, rt, path) {
        Ok(mut disk) => go(&mut disk, before) & go(other, others) & go(&mut disk, after),
        Err(_) => false,
    }
}
