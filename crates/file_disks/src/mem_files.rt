//! A file in memory.
ghost use Rattle.std.specs.Prelude.{◌≡◌, ◌+◌, ◌<◌, ◌≤◌, [], true, false, Some, IsErr, length, IfOk, OnOk, OnErr};
ghost use Rattle.std.proofs.Common.{inl};
ghost use Rattle.group_terms.specs.Faults.{one_more, Rose};
ghost use Rattle.gd_disk.specs.Media.{fresh};
ghost use Rattle.gd_disk.specs.MediaLaws.{read_stays};
ghost use Rattle.file_disks.specs.FileMedia.{MayLeaveFile, FileLeftSince};
ghost use Rattle.file_disks.specs.FileLaws.{only_now_in_file, counts_now_in_file};

use folder_files::FolderFile;
use gd_disk::{Disk, Failed, MemDisk};
use group_terms::{List, NoMemory, Schedule};
use std::alloc::Global;
use std::fmt;
use std::marker::Model;

/// A file in memory, in a folder in memory, which fails at chosen calls and can lose its power.
#[derive(Drop)]
pub struct MemFile {
    alloc: Global,
    disk: MemDisk,
    is_open: bool,
    is_locked: bool,
    is_listed: bool,
    is_sound: bool,
    /// The last moment at which the folder did not have it.
    listed: usize,
    /// The most octets that a read or a write takes.
    most: usize,
    /// Another process has its lock.
    is_taken: bool,
    /// The calls that open, lock or list.
    steps: Schedule,
}

impl fmt::Debug for MemFile {
    ghost use Rattle.std.specs.Prelude.{Some, codes};

    ghost debug_output = { λ _. Some (codes "MemFile { .. }") };

    fn fmt<W: fmt::Write>(&self, f: &mut fmt::Formatter<W>) -> fmt::Result {
        f.write_str("MemFile { .. }")
    }
}

/// How a file in memory behaves.
#[derive(Drop)]
pub struct FilePlan {
    /// The most octets that a read or a write takes, at least one.
    pub most: usize,
    /// Whether another process has its lock.
    pub is_taken: bool,
    /// Which of the calls that open, lock or list it fail, counted from 1.
    pub steps: List<u64>,
    /// Which of the calls that read, write, cut or sync it fail, counted from 1. The first that lists it counts as a write, too.
    pub calls: List<u64>,
}

impl Model for MemFile {
    ghost use Rattle.std.specs.Prelude.{◌≡◌, ◌≤◌, ◌<◌, length, true};
    ghost use Rattle.file_disks.specs.FileMedia.{FileMedium};

    ghost Value = { FileMedium };

    ghost view = { λ file. record {
      medium = file.disk;
      standing = record { is_open = file.is_open; is_locked = file.is_locked; is_listed = file.is_listed; is_sound = file.is_sound };
      listed = file.listed;
      most = file.most;
      taken = file.is_taken;
      refused = file.steps.faults;
    } };

    ghost invariant = { λ file. (0 < file.most) ×
        (file.is_listed ≡ true → file.listed < length file.disk.events) };
}

impl MemFile {
    /// A file that is not there.
    pub fn new(alloc: Global, plan: FilePlan) -> Self
        requires { 0 < plan.most }
        ensures medium { result.medium ≡ fresh [] plan.calls }
        ensures sound { result.standing.is_sound ≡ true }
        ensures unlisted { result.standing.is_listed ≡ false }
        ensures most { result.most ≡ plan.most }
        ensures taken { result.taken ≡ plan.is_taken }
        ensures refused { result.refused ≡ 0 }
    {
        let FilePlan {
            most,
            is_taken,
            steps,
            calls,
        } = plan;
        MemFile {
            alloc,
            disk: MemDisk::planned(alloc, calls),
            is_open: false,
            is_locked: false,
            is_listed: false,
            is_sound: true,
            listed: 0,
            most,
            is_taken,
            steps: Schedule::new(steps),
        }
    }

    /// The octets that a read gives.
    pub fn image(&self) -> &[u8]
        ensures { result.now ≡ self.now.medium.image }
    {
        self.disk.image()
    }

    /// Whether no sync of it or of its folder failed, so that it may be used.
    pub fn is_sound(&self) -> bool
        ensures { result ≡ self.now.standing.is_sound }
    {
        self.is_sound
    }

    /// What a loss of power leaves, by `choice` as of a crash of a disk in memory, of which there are eight; nothing where the folder does
    /// not have the file, and `choice / 8` is even. `NoMemory` if out of memory for the octets.
    pub fn crashed(self, choice: u64) -> Result<MemDisk, NoMemory>
        ensures { IfOk result (λ disk. MayLeaveFile self disk.image) }
    {
        if self.is_listed || choice / 8 % 2 == 1 {
            self.disk.crashed(choice)
        } else {
            Ok(MemDisk::new(self.alloc))
        }
    }
}

/// Counts a call that opens, locks or lists, which fails where it is listed.
fn step(steps: &mut Schedule) -> Result<(), Failed>
    ensures cause { OnErr result (Rose steps.old.faults steps.new.faults) }
    ensures no_fault { OnOk result (steps.new.faults ≡ steps.old.faults) }
    ensures counted { steps.old.faults ≤ steps.new.faults }
{
    if steps.call() {
        return Err(steps.fail());
    }
    Ok(())
}

impl FolderFile for MemFile {
    ghost faults = { λ file. file.medium.faults + file.refused };

    ghost honest = { λ _. true };

    ghost image = { λ file. Some file.medium.image };

    ghost moment = { λ file. length file.medium.events };

    ghost may_leave = { MayLeaveFile };

    ghost left_since = { FileLeftSince };

    ghost standing = { λ file. file.standing };

    ghost reads_stay = { λ file octets is. inl (read_stays file.medium.image file.medium.events octets is) };

    ghost counts_now = { λ file t c earlier now. counts_now_in_file file t c now };

    ghost only_now = { only_now_in_file };

    fn prove_ends_near(&self) {
        self.disk.image();
    }

    fn open(&mut self) -> Result<(), Failed> {
        step(&mut self.steps)?;
        self.is_open = true;
        self.is_locked = false;
        Ok(())
    }

    fn lock(&mut self) -> Result<(), Failed> {
        if self.is_taken {
            return Err(self.steps.fail());
        }
        step(&mut self.steps)?;
        self.is_locked = true;
        Ok(())
    }

    fn read_at(&mut self, at: u64, into: &mut [u8]) -> Result<usize, Failed> {
        let n = into.len().min(self.most);
        self.disk.read(at, &mut into[..n])
    }

    fn write_at(&mut self, at: u64, octets: &[u8]) -> Result<usize, Failed> {
        let n = octets.len().min(self.most);
        self.disk.write_at(at, &octets[..n])?;
        Ok(n)
    }

    fn set_len(&mut self, to: u64) -> Result<(), Failed> {
        self.disk.cut(to)
    }

    fn sync(&mut self) -> Result<(), Failed> {
        self.is_sound = false;
        self.disk.sync()?;
        self.is_sound = true;
        Ok(())
    }

    /// The folder has the file from then on: a write of no octets, which no loss of power distinguishes from none, makes that a moment of its own.
    fn sync_folder(&mut self) -> Result<(), Failed> {
        self.is_sound = false;
        step(&mut self.steps)?;
        if self.is_listed {
            self.is_sound = true;
            return Ok(());
        }
        let moment = self.disk.moment();
        self.disk.write_at(0, &[])?;
        self.is_listed = true;
        self.listed = moment;
        self.is_sound = true;
        Ok(())
    }
}
