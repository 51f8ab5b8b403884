//! A disk over a file of a folder.
ghost use Rattle.std.specs.Prelude.{◌≡◌, ◌⊎◌, ◌↔◌, ℕ, ◌+◌, ◌^◌, ◌<◌, ◌≤◌, List, length, take, true, false, Some, IsSome, IsTrue, IsErr, IfOk, OnOk, OnErr};
ghost use Rattle.gd_disk.specs.Disks.{known, Knows, IsRead, written, Torn, Cut, Steps, Follows, Narrows, Only, Elapses};
ghost use Rattle.group_terms.specs.Faults.{Rose};
ghost use Rattle.folder_files.specs.Files.{Standing};

use crate::counts::counted;
use crate::std_files::StdFile;
use folder_files::{FolderFile, Stage, cut, read, sync, write};
use gd_disk::{Disk, Failed};
use group_terms::NoMemory;
use std::alloc::Global;
use std::fs::File;
use std::marker::Model;
use std::rt::Files;

/// A file of a folder as a disk. It is opened and locked at the first call, and made where it is not there. Before the first sync its folder
/// is synced.
///
/// After a sync that failed, of the file or of its folder, each call fails: octets that were not on the device by then may be lost though a
/// read still gives them, and no later sync would show it.
#[derive(Drop)]
pub struct OverFile<F: FolderFile> {
    file: F,
    stage: Stage,
    faults: u64,
}

impl<F: FolderFile> Model for OverFile<F> {
    ghost use Rattle.folder_files.specs.Stages.{Fits, is_lost};
    ghost use Rattle.file_disks.specs.Views.{View};

    ghost Value = { View F };

    ghost invariant = { λ disk. Fits disk.stage (F.FolderFile.standing disk.file) };

    ghost view = { λ disk. record { file = disk.file; lost = is_lost disk.stage; faults = disk.faults } };
}

impl<F: FolderFile> OverFile<F> {
    /// A disk over a file that was not used.
    pub fn over(file: F) -> Self
        requires { IsTrue (F.standing file).is_sound }
        ensures { result ≡ record { file = file; lost = false; faults = 0 } }
    {
        OverFile {
            file,
            stage: Stage::Unopened,
            faults: 0,
        }
    }

    /// The file.
    pub fn file(&self) -> &F
        ensures { result.now ≡ self.now.file }
    {
        &self.file
    }

    /// The file, as it is.
    pub fn into_file(self) -> F
        ensures { result ≡ self.file }
    {
        self.file
    }
}

/// A file of the operating system as a disk.
pub type FileDisk<R> = OverFile<StdFile<R>>;

impl<R: Files<File = File> + Clone> OverFile<StdFile<R>> {
    /// A disk over the file at a path, which is opened at the first call, and made where it is not there. `NoMemory` where there is none
    /// for the path.
    pub fn new(alloc: Global, rt: &R, path: &str) -> Result<OverFile<StdFile<R>>, NoMemory>
        ensures { IfOk result (λ disk. (disk.faults ≡ 0) × (disk.lost ≡ false)) }
    {
        Ok(OverFile::over(StdFile::new(alloc, rt, path)?))
    }
}

impl<F: FolderFile> Disk for OverFile<F> {
    ghost faults = { λ disk. disk.faults };

    ghost honest = { λ disk. F.FolderFile.honest disk.file };

    ghost image = { λ disk. F.FolderFile.image disk.file };

    ghost moment = { λ disk. F.FolderFile.moment disk.file };

    ghost may_leave = { λ disk. F.FolderFile.may_leave disk.file };

    ghost left_since = { λ disk. F.FolderFile.left_since disk.file };

    ghost reads_stay = { λ disk. F.FolderFile.reads_stay disk.file };

    ghost counts_now = { λ disk. F.FolderFile.counts_now disk.file };

    ghost only_now = { λ disk. F.FolderFile.only_now disk.file };

    /// Fails only where a call of the file does, and after a sync that failed.
    fn read(&mut self, at: u64, into: &mut [u8]) -> Result<usize, Failed>
        ensures count { IfOk result (λ n. n ≤ length into.new) }
        ensures far { 2 ^ 62 ≤ at → IfOk result (λ n. n ≡ 0) }
        ensures octets { IfOk result (λ n. Knows (known F.honest F.image self.old.file)
            (λ file. IsRead file at (length into.old) n into.new)) }
        ensures image { known F.honest F.image self.new.file ≡ known F.honest F.image self.old.file }
        ensures crash { Knows (known F.honest F.image self.old.file)
            (λ _. (c : List ℕ) → F.may_leave self.new.file c ↔ F.may_leave self.old.file c) }
        ensures time { Elapses (F.moment self.old.file) (F.moment self.new.file)
            (F.left_since self.old.file) (F.left_since self.new.file) (F.may_leave self.new.file) }
        ensures honest { F.honest self.new.file ≡ F.honest self.old.file }
        ensures exposed { IsSome (F.image self.new.file) ↔ IsSome (F.image self.old.file) }
        ensures cause { OnErr result (Rose self.old.faults self.new.faults) }
        ensures no_fault { OnOk result (self.new.faults ≡ self.old.faults) }
        ensures counted { self.old.faults ≤ self.new.faults }
        ensures own { OnErr result ((self.old.lost ≡ true) ⊎ Rose (F.faults self.old.file) (F.faults self.new.file)) }
        ensures ended { self.old.lost ≡ true → IsErr result × (self.new.lost ≡ true) }
        ensures sound { self.new.lost ≡ false → IsTrue (F.standing self.new.file).is_sound }
    {
        let answer = read(&mut self.file, &mut self.stage, at, into);
        counted(&mut self.faults, answer)
    }

    /// Fails only where a call of the file does, after a sync that failed, and where the octets would end past 2^62.
    fn write_at(&mut self, at: u64, octets: &[u8]) -> Result<(), Failed>
        requires { Knows (known F.honest F.image self.old.file) (λ file. at ≤ length file) }
        ensures far { OnOk result (at + length octets.now ≤ 2 ^ 62) }
        ensures image { OnOk result (Knows (known F.honest F.image self.old.file)
            (λ file. known F.honest F.image self.new.file ≡ Some (written file at octets.now))) }
        ensures failed { OnErr result (Steps (Torn at (length octets.now)) (known F.honest F.image self.old.file) (known F.honest F.image self.new.file)) }
        ensures crash { Knows (known F.honest F.image self.old.file)
            (λ _. Follows (Torn at (length octets.now)) (F.may_leave self.old.file) (F.may_leave self.new.file)) }
        ensures time { Elapses (F.moment self.old.file) (F.moment self.new.file)
            (F.left_since self.old.file) (F.left_since self.new.file) (F.may_leave self.new.file) }
        ensures honest { F.honest self.new.file ≡ F.honest self.old.file }
        ensures exposed { IsSome (F.image self.new.file) ↔ IsSome (F.image self.old.file) }
        ensures cause { OnErr result (Rose self.old.faults self.new.faults) }
        ensures no_fault { OnOk result (self.new.faults ≡ self.old.faults) }
        ensures counted { self.old.faults ≤ self.new.faults }
        ensures own { OnErr result (((self.old.lost ≡ true) ⊎ Rose (F.faults self.old.file) (F.faults self.new.file))
            ⊎ (2 ^ 62 < at + length octets.now)) }
        ensures ended { self.old.lost ≡ true → IsErr result × (self.new.lost ≡ true) }
        ensures sound { self.new.lost ≡ false → IsTrue (F.standing self.new.file).is_sound }
    {
        let answer = write(&mut self.file, &mut self.stage, at, octets);
        counted(&mut self.faults, answer)
    }

    /// Fails only where a call of the file does, and after a sync that failed.
    fn cut(&mut self, to: u64) -> Result<(), Failed>
        requires { Knows (known F.honest F.image self.old.file) (λ file. to ≤ length file) }
        ensures image { OnOk result (Knows (known F.honest F.image self.old.file)
            (λ file. known F.honest F.image self.new.file ≡ Some (take to file))) }
        ensures failed { OnErr result (Steps (Cut to) (known F.honest F.image self.old.file) (known F.honest F.image self.new.file)) }
        ensures crash { Knows (known F.honest F.image self.old.file)
            (λ _. Follows (Cut to) (F.may_leave self.old.file) (F.may_leave self.new.file)) }
        ensures time { Elapses (F.moment self.old.file) (F.moment self.new.file)
            (F.left_since self.old.file) (F.left_since self.new.file) (F.may_leave self.new.file) }
        ensures honest { F.honest self.new.file ≡ F.honest self.old.file }
        ensures exposed { IsSome (F.image self.new.file) ↔ IsSome (F.image self.old.file) }
        ensures cause { OnErr result (Rose self.old.faults self.new.faults) }
        ensures no_fault { OnOk result (self.new.faults ≡ self.old.faults) }
        ensures counted { self.old.faults ≤ self.new.faults }
        ensures own { OnErr result ((self.old.lost ≡ true) ⊎ Rose (F.faults self.old.file) (F.faults self.new.file)) }
        ensures ended { self.old.lost ≡ true → IsErr result × (self.new.lost ≡ true) }
        ensures sound { self.new.lost ≡ false → IsTrue (F.standing self.new.file).is_sound }
    {
        let answer = cut(&mut self.file, &mut self.stage, to);
        counted(&mut self.faults, answer)
    }

    /// Fails only where a call of the file or of its folder does, and after a sync that failed.
    fn sync(&mut self) -> Result<(), Failed>
        ensures durable { OnOk result (Knows (known F.honest F.image self.old.file)
            (λ file. Only file (F.may_leave self.new.file))) }
        ensures image { known F.honest F.image self.new.file ≡ known F.honest F.image self.old.file }
        ensures crash { Knows (known F.honest F.image self.old.file)
            (λ _. Narrows (F.may_leave self.old.file) (F.may_leave self.new.file)) }
        ensures time { Elapses (F.moment self.old.file) (F.moment self.new.file)
            (F.left_since self.old.file) (F.left_since self.new.file) (F.may_leave self.new.file) }
        ensures honest { F.honest self.new.file ≡ F.honest self.old.file }
        ensures exposed { IsSome (F.image self.new.file) ↔ IsSome (F.image self.old.file) }
        ensures cause { OnErr result (Rose self.old.faults self.new.faults) }
        ensures no_fault { OnOk result (self.new.faults ≡ self.old.faults) }
        ensures counted { self.old.faults ≤ self.new.faults }
        ensures own { OnErr result ((self.old.lost ≡ true) ⊎ Rose (F.faults self.old.file) (F.faults self.new.file)) }
        ensures ended { self.old.lost ≡ true → IsErr result × (self.new.lost ≡ true) }
        ensures sound { self.new.lost ≡ false → IsTrue (F.standing self.new.file).is_sound }
    {
        let answer = sync(&mut self.file, &mut self.stage);
        counted(&mut self.faults, answer)
    }
}
