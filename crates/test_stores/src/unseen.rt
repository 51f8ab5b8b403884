//! A disk for tests that commit.
ghost use Rattle.std.specs.Prelude.{◌≡◌, ◌≤◌, ⊤, false, None, OnErr, is_err, if◌then◌else◌};
ghost use Rattle.group_terms.specs.Faults.{Rose, one_more};

use file_disks::{FilePlan, MemFile, OverFile};
use gd_disk::{Disk, Failed, MemDisk};
use group_terms::{List, counted_on};
use std::alloc::Global;
use std::marker::Model;

/// A disk over a file in memory that exposes nothing, so that no clause asks what it holds. Contracts see alone how many of its calls failed.
#[derive(Drop)]
pub(crate) struct UnseenDisk {
    disk: OverFile<MemFile>,
    faults: u64,
}

impl Model for UnseenDisk {
    ghost use Rattle.std.specs.Prelude.{ℕ};

    ghost Value = { ℕ };

    ghost view = { λ disk. disk.faults };
}

impl UnseenDisk {
    /// A disk over a file that is not there: the most octets that a call takes, whether another process has its lock, and the calls that fail: those
    /// that open, lock or list it, and the others.
    pub(crate) fn planned(
        alloc: Global,
        most: usize,
        is_taken: bool,
        steps: &[u64],
        calls: &[u64],
    ) -> Option<Self> {
        let steps = List::copy_of(alloc, steps).ok()?;
        let calls = List::copy_of(alloc, calls).ok()?;
        let plan = FilePlan {
            most: most.max(1),
            is_taken,
            steps,
            calls,
        };
        let disk = OverFile::over(MemFile::new(alloc, plan));
        Some(UnseenDisk { disk, faults: 0 })
    }

    /// What a loss of power leaves.
    pub(crate) fn crashed(self, choice: u64) -> Option<MemDisk> {
        self.disk.into_file().crashed(choice).ok()
    }

    /// Another disk over the same file, unless a sync of that failed.
    pub(crate) fn used_again(self) -> Option<Self> {
        let file = self.disk.into_file();
        if !file.is_sound() {
            return None;
        }
        let disk = OverFile::over(file);
        Some(UnseenDisk { disk, faults: 0 })
    }

    /// The answer of a call, which counts a fault where it failed.
    fn counted<T: Drop>(&mut self, answer: Result<T, Failed>) -> Result<T, Failed>
        ensures faults { self.new ≡ (if is_err result then one_more self.old else self.old) }
        ensures rose { OnErr result (Rose self.old self.new) }
        ensures no_less { self.old ≤ self.new }
        ensures same { result ≡ answer }
    {
        match answer {
            Ok(value) => Ok(value),
            Err(Failed) => {
                self.faults = counted_on(self.faults);
                Err(Failed)
            }
        }
    }
}

impl Disk for UnseenDisk {
    ghost faults = { λ disk. disk };

    ghost honest = { λ _. false };

    ghost image = { λ _. None };

    ghost moment = { λ _. 0 };

    ghost may_leave = { λ _ _. ⊤ };

    ghost left_since = { λ _ _ _. ⊤ };

    ghost reads_stay = { λ disk file is. tt };

    ghost counts_now = { λ disk t c earlier now. now };

    ghost only_now = { λ disk c left. left };

    fn read(&mut self, at: u64, into: &mut [u8]) -> Result<usize, Failed> {
        let answer = self.disk.read(at, into);
        self.counted(answer)
    }

    /// Fails past the end of the file, too.
    fn write_at(&mut self, at: u64, octets: &[u8]) -> Result<(), Failed> {
        if at > self.disk.file().image().len() as u64 {
            return self.counted(Err(Failed));
        }
        let answer = self.disk.write_at(at, octets);
        self.counted(answer)
    }

    /// Fails past the end of the file, too.
    fn cut(&mut self, to: u64) -> Result<(), Failed> {
        if to > self.disk.file().image().len() as u64 {
            return self.counted(Err(Failed));
        }
        let answer = self.disk.cut(to);
        self.counted(answer)
    }

    fn sync(&mut self) -> Result<(), Failed> {
        let answer = self.disk.sync();
        self.counted(answer)
    }
}

/// A disk with what a loss of power leaves of another.
pub(crate) fn after_crash(alloc: Global, disk: UnseenDisk, choice: u64) -> Option<UnseenDisk> {
    let left = disk.crashed(choice)?;
    holding(alloc, &[], left.image())
}

/// A disk with these octets that fails at these calls. To write them is the first one.
pub(crate) fn holding(alloc: Global, calls: &[u64], octets: &[u8]) -> Option<UnseenDisk> {
    let disk = UnseenDisk::planned(alloc, usize::MAX, false, &[], calls)?;
    written(disk, octets)
}

/// A disk after these octets were written to it.
fn written(mut disk: UnseenDisk, octets: &[u8]) -> Option<UnseenDisk> {
    match disk.write_at(0, octets) {
        Ok(()) => Some(disk),
        Err(Failed) => None,
    }
}
