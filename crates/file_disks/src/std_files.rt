//! A file of the operating system.
ghost use Rattle.std.specs.Prelude.{⊤, ◌≡◌, ◌<◌, ◌≤◌, true, false, None, length, IfOk};
ghost use Rattle.folder_files.specs.Files.{Standing};

use crate::counts::counted;
use folder_files::FolderFile;
use gd_disk::Failed;
use group_terms::NoMemory;
use std::alloc::Global;
use std::fs::{File, OpenFile, OpenOptions};
use std::io;
use std::marker::Model;
use std::os::unix::fs::{FileExt, OpenOptionsExt};
use std::rt::Files;

/// A file of the operating system. It exposes nothing, since no contract says what a file holds, and counts the calls that fail. Contracts
/// see that count, and whether a sync failed.
#[derive(Drop)]
pub struct StdFile<R> {
    rt: R,
    path: String,
    file: Option<File>,
    /// No sync failed.
    is_sound: bool,
    faults: u64,
}

impl<R> Model for StdFile<R> {
    ghost use Rattle.file_disks.specs.Views.{SystemFile};

    ghost Value = { SystemFile };

    ghost view = { λ file. record { is_sound = file.is_sound; faults = file.faults } };
}

impl<R: Files<File = File> + Clone> StdFile<R> {
    /// The file at a path, before it is opened. `NoMemory` if out of memory for the path.
    pub fn new(alloc: Global, rt: &R, path: &str) -> Result<StdFile<R>, NoMemory>
        ensures { IfOk result (λ file. file ≡ record { is_sound = true; faults = 0 }) }
    {
        Ok(StdFile {
            rt: rt.clone()?,
            path: String::from_str(alloc, path)?,
            file: None,
            is_sound: true,
            faults: 0,
        })
    }
}

impl<R> StdFile<R> {
    /// The open file; a failure where it is not open.
    fn handle(&self) -> Result<&File, Failed> {
        match &self.file {
            Some(file) => Ok(file),
            None => Err(Failed),
        }
    }
}

// What the system answers to each call.
impl<R: Files<File = File>> StdFile<R> {
    fn open_file(&mut self) -> Result<(), Failed>
        ensures { self.new ≡ self.old }
    {
        self.file = None;
        self.file = Some(open_or_make(&self.rt, self.path.as_str())?);
        Ok(())
    }

    fn lock_file(&self) -> Result<(), Failed> {
        self.handle()?.try_lock().map_err(|_| Failed)
    }

    fn read_file(&self, at: u64, into: &mut [u8]) -> Result<usize, Failed>
        ensures { IfOk result (λ n. n ≤ length into.new) }
    {
        read_some(self.handle()?, at, into)
    }

    fn write_file(&self, at: u64, octets: &[u8]) -> Result<usize, Failed>
        ensures some { IfOk result (λ n. 0 < n) }
        ensures count { IfOk result (λ n. n ≤ length octets.now) }
    {
        write_some(self.handle()?, at, octets)
    }

    fn cut_file(&self, to: u64) -> Result<(), Failed> {
        self.handle()?.set_len(to).map_err(|_| Failed)
    }

    fn sync_file(&self) -> Result<(), Failed> {
        self.handle()?.sync_all().map_err(|_| Failed)
    }
}

/// Opens the file at a path, and makes it where it is not there. Its owner alone may read and write one that is made. What is no regular file
/// fails.
fn open_or_make<R: Files<File = File>>(rt: &R, path: &str) -> Result<File, Failed> {
    let file = OpenOptions::new()
        .read(true)
        .write(true)
        .create(true)
        .mode(0o600)
        .open(rt, path)
        .map_err(|_| Failed)?;
    match file.metadata() {
        Ok(metadata) if metadata.is_file() => Ok(file),
        _ => Err(Failed),
    }
}

/// Waits until the folder of a path has its entries on the device.
fn sync_folder_of<R: Files<File = File>>(rt: &R, path: &str) -> io::Result<()> {
    File::open(rt, folder_of(path))?.sync_all()
}

/// The folder in which a path lies.
fn folder_of(path: &str) -> &str {
    match path.rsplit_once('/') {
        None => ".",
        Some(("", _)) => "/",
        Some((folder, _)) => folder,
    }
}

/// One read, tried again where a signal broke it off.
fn read_some(file: &File, at: u64, into: &mut [u8]) -> Result<usize, Failed>
    ensures { IfOk result (λ n. n ≤ length into.new) }
{
    for _ in 0..u64::MAX {
        match file.read_at(into, at) {
            Ok(n) => return Ok(n),
            Err(error) if error.kind() == io::ErrorKind::Interrupted => {}
            Err(_) => return Err(Failed),
        }
    }
    Err(Failed)
}

/// One write, tried again where a signal broke it off. One that writes nothing fails.
fn write_some(file: &File, at: u64, octets: &[u8]) -> Result<usize, Failed>
    ensures some { IfOk result (λ n. 0 < n) }
    ensures count { IfOk result (λ n. n ≤ length octets.now) }
{
    for _ in 0..u64::MAX {
        match file.write_at(octets, at) {
            Ok(0) => return Err(Failed),
            Ok(n) => return Ok(n),
            Err(error) if error.kind() == io::ErrorKind::Interrupted => {}
            Err(_) => return Err(Failed),
        }
    }
    Err(Failed)
}

impl<R: Files<File = File>> FolderFile for StdFile<R> {
    ghost faults = { λ file. file.faults };

    ghost honest = { λ _. false };

    ghost image = { λ _. None };

    ghost moment = { λ _. 0 };

    ghost may_leave = { λ _ _. ⊤ };

    ghost left_since = { λ _ _ _. ⊤ };

    ghost standing = { λ file. record { is_open = true; is_locked = true; is_listed = true; is_sound = file.is_sound } };

    ghost reads_stay = { λ file octets is. tt };

    ghost counts_now = { λ file t c earlier now. now };

    ghost only_now = { λ file c left. left };

    fn prove_ends_near(&self) {}

    fn open(&mut self) -> Result<(), Failed> {
        let answer = self.open_file();
        counted(&mut self.faults, answer)
    }

    fn lock(&mut self) -> Result<(), Failed> {
        let answer = self.lock_file();
        counted(&mut self.faults, answer)
    }

    fn read_at(&mut self, at: u64, into: &mut [u8]) -> Result<usize, Failed> {
        let answer = self.read_file(at, into);
        counted(&mut self.faults, answer)
    }

    fn write_at(&mut self, at: u64, octets: &[u8]) -> Result<usize, Failed> {
        let answer = self.write_file(at, octets);
        counted(&mut self.faults, answer)
    }

    fn set_len(&mut self, to: u64) -> Result<(), Failed> {
        let answer = self.cut_file(to);
        counted(&mut self.faults, answer)
    }

    fn sync(&mut self) -> Result<(), Failed> {
        let answer = self.sync_file();
        self.is_sound = answer.is_ok();
        counted(&mut self.faults, answer)
    }

    fn sync_folder(&mut self) -> Result<(), Failed> {
        let answer = sync_folder_of(&self.rt, self.path.as_str()).map_err(|_| Failed);
        self.is_sound = answer.is_ok();
        counted(&mut self.faults, answer)
    }
}
