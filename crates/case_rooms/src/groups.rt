//! Runs groups at the level of a key server's core, on disks in memory that fail and crash where a case says so.
//!
//! ```text
//! core case NAME SEED CALL ..      an empty disk that fails at these of its calls, counted from 1, and the draws of a seed
//! core disk OCTETS                 a disk with these octets
//! core new DEPTH LIMIT             makes the group, with a tree of this depth, and a limit of its epochs and sequence numbers
//! core open                        opens the group that the disk has
//! core crash CHOICE                the group is gone, and the disk is as a crash of this number leaves it
//! core close                       the group is closed, and the disk is as it is
//! core join NAME
//! core leave NAME
//! core batch
//! core reopen
//! core halt
//! core show                        who has which leaf
//! core reply NAME                  what a member is told that asks now
//! core look NAME                   what is known of a name: its leaf, or `-`, and whether a change of it waits
//! core state                       what else is known of the group
//! core draw                        the next block of the draws, for somebody else
//! core work PATH DEPTH WORD ..     another group, on the file at a path, whatever that held: `+NAME` comes in, `-NAME` goes out, `.` closes the batch
//! ```
//!
//! Of a disk its size and octets are shown; of a group its epoch, its last number and its members; of a batch besides each key that it encrypts, `wrap
//! POSITION EPOCH POSITION EPOCH` with the key that seals first and position 0 for the traffic key, each push with its number and size, and what those are
//! told who come in. Octets of disks, pushes and keys are shown by their SHA-256. The group of a case stays while a work is done.

use crate::groups::asks::ask;
use crate::groups::cores::{SeedCore, SeedOpening, SeedParts, create, new_group, open, parts_on};
use crate::groups::shows::{add_hash, add_opened, add_refused};
use crate::groups::works::work;
use case_lines::{Text, long_number, octets, put};
use gcks_core::{CoreOpened, Opening, Parts};
use gd_disk::MemDisk;
use group_terms::{List, NoMemory};
use std::alloc::Global;

mod asks;
mod cores;
mod shows;
mod works;

pub type TestCore = SeedCore<MemDisk>;

type TestParts = SeedParts<MemDisk>;

type TestOpening = SeedOpening<MemDisk>;

/// No disk has more octets.
const FARTHEST: usize = 1 << 62;

/// A case so far: the group, while it is open, and else what one is made of.
pub struct GroupCase {
    parts: Option<TestParts>,
    core: Option<TestCore>,
}

impl Drop for GroupCase {
    fn drop(self) {
        let GroupCase { parts, core } = self;
        drop(parts);
        let_go(core);
    }
}

impl GroupCase {
    /// A disk, and the draws of a seed.
    pub fn new(disk: MemDisk, seed: u64) -> Self {
        GroupCase {
            parts: Some(parts_on(disk, seed)),
            core: None,
        }
    }

    /// Does what these words ask for, and appends the answer. `None` where they ask for nothing that can be done.
    pub fn answer(&mut self, rt: &HostRuntime, words: &[&str], text: &mut Text) -> Option<()> {
        let (word, rest) = words.split_first()?;
        match *word {
            "case" => self.begin(rt.alloc(), rest, text),
            "work" => work(rt, rest, text),
            word => self.go_on(rt.alloc(), word, rest, text),
        }
    }

    fn go_on(&mut self, alloc: Global, word: &str, rest: &[&str], text: &mut Text) -> Option<()> {
        match word {
            "disk" => self.put_disk(alloc, rest, text),
            "new" => self.make(alloc, rest, text),
            "open" => self.open(alloc, text),
            "close" => self.close(text),
            "crash" => self.crash(rest, text),
            _ => match &mut self.core {
                Some(core) => ask(alloc, core, word, rest, text),
                None => None,
            },
        }
    }

    /// Another case.
    fn begin(&mut self, alloc: Global, words: &[&str], text: &mut Text) -> Option<()> {
        let [name, seed, calls @ ..] = words else {
            return None;
        };
        let seed = long_number(seed)?;
        let disk = failing_disk(alloc, calls)?;
        put(self, GroupCase::new(disk, seed));
        text.add("case ");
        text.add(name);
        Some(())
    }

    /// Another disk in place of the one that was there. No group may be open.
    fn put_disk(&mut self, alloc: Global, words: &[&str], text: &mut Text) -> Option<()> {
        let [image] = words else {
            return None;
        };
        match &mut self.parts {
            Some(parts) => put(&mut parts.disk, disk_with(alloc, image)?),
            None => return None,
        }
        self.add_disk(text)
    }

    fn close(&mut self, text: &mut Text) -> Option<()> {
        let parts = self.take_apart();
        put(&mut self.parts, parts);
        self.add_disk(text)
    }

    fn crash(&mut self, words: &[&str], text: &mut Text) -> Option<()> {
        let [choice] = words else {
            return None;
        };
        let choice = long_number(choice)?;
        let parts = crashed(self.take_apart()?, choice);
        put(&mut self.parts, parts);
        self.add_disk(text)
    }

    /// What the group is made of, which is closed if it was open.
    fn take_apart(&mut self) -> Option<TestParts> {
        match self.core.take() {
            Some(core) => Some(core.into_parts()),
            None => self.parts.take(),
        }
    }

    /// What the disk of a group has that is not open: `disk SIZE OCTETS`.
    fn add_disk(&self, text: &mut Text) -> Option<()> {
        let Some(parts) = &self.parts else {
            return None;
        };
        let image = parts.disk.image();
        text.add("disk");
        text.add_numbers(&[image.len() as u64]);
        add_hash(image, text);
        Some(())
    }

    fn make(&mut self, alloc: Global, words: &[&str], text: &mut Text) -> Option<()> {
        let [depth, limit] = words else {
            return None;
        };
        let group = new_group(depth, limit)?;
        let made = create(alloc, self.parts.take()?, &group);
        self.keep_made(made, text);
        Some(())
    }

    /// Keeps the group that was made, or what it would be made of.
    fn keep_made(&mut self, made: Result<TestCore, TestOpening>, text: &mut Text) {
        match made {
            Ok(core) => {
                let_go(self.core.replace(core));
                text.add("made");
            }
            Err(opening) => self.keep_refused(opening, text),
        }
    }

    fn keep_refused(&mut self, opening: TestOpening, text: &mut Text) {
        let Opening { refusal, parts } = opening;
        put(&mut self.parts, Some(parts));
        add_refused(refusal, text);
    }

    fn open(&mut self, alloc: Global, text: &mut Text) -> Option<()> {
        match open(alloc, self.parts.take()?) {
            Ok(opened) => {
                add_opened(&opened.core, &opened.resent, text);
                let CoreOpened { core, resent } = opened;
                drop(resent);
                let_go(self.core.replace(core));
            }
            Err(opening) => self.keep_refused(opening, text),
        }
        Some(())
    }
}

/// Lets a group go, if there is one, by what it is made of.
fn let_go(core: Option<TestCore>) {
    match core {
        Some(core) => drop(core.into_parts()),
        None => {}
    }
}

/// An empty disk that fails at these of its calls.
fn failing_disk(alloc: Global, words: &[&str]) -> Option<MemDisk> {
    let mut calls = List::new(alloc);
    for word in words {
        calls.push(long_number(word)?).ok()?;
    }
    Some(MemDisk::planned(alloc, calls))
}

/// A disk with these octets.
pub fn disk_with(alloc: Global, word: &str) -> Option<MemDisk> {
    let image = octets(alloc, word)?;
    if image.len() > FARTHEST {
        return None;
    }
    Some(MemDisk::holding(alloc, List::from_vec(image)))
}

/// What a group is made of after a crash of this number. `None` if out of memory.
fn crashed(parts: TestParts, choice: u64) -> Option<TestParts> {
    let Parts {
        disk,
        signer,
        draws,
    } = parts;
    match disk.crashed(choice) {
        Ok(disk) => Some(Parts {
            disk,
            signer,
            draws,
        }),
        Err(NoMemory) => {
            drop(draws);
            None
        }
    }
}
