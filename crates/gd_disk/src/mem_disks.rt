//! A disk in memory: how it is made, seen and crashed.
ghost use Rattle.std.specs.Prelude.{◌≡◌, [], ◌+◌, ◌^◌, ◌%◌, ◌≤◌, length, IsTrue, IsErr, is_err, IfOk, OnOk, OnErr};
ghost use Rattle.gd_disk.specs.Disks.{IsRead};
ghost use Rattle.group_terms.specs.Faults.{fails_next};
ghost use Rattle.gd_disk.specs.Media.{MayLeave, synced_image, fresh, called, failing, wrote, shortened, synced};

use crate::Failed;
use crate::crashes::{Crash, surviving};
use crate::events::Event;
use crate::octets::{cut, read_from, sync, write};
use crate::places::ends_too_far;
use group_terms::{List, NoMemory, Octets, Schedule};
use std::alloc::Global;
use std::fmt;
use std::marker::Model;

/// A disk in memory, which fails at chosen calls and can be crashed. It keeps all that was done to
/// it.
#[derive(Drop)]
pub struct MemDisk {
    alloc: Global,
    octets: Octets,
    events: List<Event>,
    schedule: Schedule,
}

impl fmt::Debug for MemDisk {
    ghost use Rattle.std.specs.Prelude.{Some, codes};

    ghost debug_output = { λ _. Some (codes "MemDisk { .. }") };

    fn fmt<W: fmt::Write>(&self, f: &mut fmt::Formatter<W>) -> fmt::Result {
        f.write_str("MemDisk { .. }")
    }
}

impl Model for MemDisk {
    ghost use Rattle.std.specs.Prelude.{reverse};
    ghost use Rattle.gd_disk.specs.Media.{Medium};
    ghost use Rattle.gd_disk.specs.Private.Bounds.{LiesWithin};

    ghost Value = { Medium };

    ghost view = { λ disk. record {
      image = disk.octets;
      events = reverse disk.events;
      calls = disk.schedule.calls;
      fails = disk.schedule.fails;
      faults = disk.schedule.faults;
    } };

    ghost invariant = { λ disk. LiesWithin disk.octets (reverse disk.events) };
}

impl MemDisk {
    /// An empty disk. It takes no memory.
    pub fn new(alloc: Global) -> Self
        ensures { result ≡ fresh [] [] }
    {
        MemDisk::planned(alloc, List::new(alloc))
    }

    /// An empty disk that fails at the calls listed, counted from 1 over all kinds. It takes no
    /// memory.
    pub fn planned(alloc: Global, fails: List<u64>) -> Self
        ensures { result ≡ fresh [] fails }
    {
        MemDisk {
            alloc,
            octets: List::new(alloc),
            events: List::new(alloc),
            schedule: Schedule::new(fails),
        }
    }

    /// A disk with these octets, all of them synced. It takes no memory.
    pub fn holding(alloc: Global, image: Octets) -> Self
        requires { length image ≤ 2 ^ 62 }
        ensures { result ≡ fresh image [] }
    {
        MemDisk {
            alloc,
            octets: image,
            events: List::new(alloc),
            schedule: Schedule::new(List::new(alloc)),
        }
    }

    /// The octets that a read gives. They do not end past 2^62.
    pub fn image(&self) -> &[u8]
        ensures octets { result.now ≡ self.now.image }
        ensures near { length result.now ≤ 2 ^ 62 }
    {
        self.octets.as_slice()
    }

    /// How many writes, cuts and syncs were made.
    pub fn moment(&self) -> usize
        ensures { result ≡ length self.now.events }
    {
        self.events.len()
    }

    /// The disk as a crash leaves it, with all synced, no fault and no planned one. By `choice`
    /// modulo 8 there is, of the writes and cuts that were not synced: nothing, all, the first
    /// alone, half of each, each range filled with 0xff, the last alone, each range filled with 0,
    /// or each with octets drawn by the choice. `NoMemory` where there is none for the octets.
    pub fn crashed(self, choice: u64) -> Result<MemDisk, NoMemory>
        ensures left { IfOk result (λ disk. MayLeave self.image self.events disk.image) }
        ensures started { IfOk result (λ disk. disk ≡ fresh disk.image []) }
        ensures nothing { choice % 8 ≡ 0 →
            IfOk result (λ disk. disk.image ≡ synced_image self.image self.events) }
        ensures all { choice % 8 ≡ 1 → IfOk result (λ disk. disk.image ≡ self.image) }
    {
        let MemDisk {
            alloc,
            octets,
            events,
            ..
        } = self;
        let image = surviving(alloc, octets, events.as_slice(), Crash::of(choice))?;
        Ok(MemDisk::holding(alloc, image))
    }

    /// What the disk answers to each call, from which follows what is promised of it.
    pub(crate) fn read_or_fail(&mut self, at: u64, into: &mut [u8]) -> Result<usize, Failed>
        ensures done { OnOk result (self.new ≡ called self.old) }
        ensures failed { OnErr result (self.new ≡ failing self.old) }
        ensures counted { self.old.faults ≤ self.new.faults }
        ensures octets { IfOk result (λ n. IsRead self.old.image at (length into.old) n into.new) }
        ensures near { length self.old.image ≤ 2 ^ 62 }
        ensures listed { is_err result ≡ fails_next self.old.calls self.old.fails }
    {
        if self.schedule.call() {
            return Err(self.schedule.fail());
        }
        Ok(read_from(self.octets.as_slice(), at, into))
    }

    pub(crate) fn write_or_fail(&mut self, at: u64, new: &[u8]) -> Result<(), Failed>
        requires { at ≤ length self.old.image }
        ensures done { OnOk result (self.new ≡ wrote self.old at new.now) }
        ensures failed { OnErr result (self.new ≡ failing self.old) }
        ensures counted { self.old.faults ≤ self.new.faults }
        ensures far { OnOk result (at + length new.now ≤ 2 ^ 62) }
        ensures listed { IsTrue (fails_next self.old.calls self.old.fails) → IsErr result }
    {
        if self.schedule.call() {
            return Err(self.schedule.fail());
        }
        if ends_too_far(at, new) {
            return Err(self.schedule.fail());
        }
        match write(
            self.alloc,
            &mut self.octets,
            &mut self.events,
            at as usize,
            new,
        ) {
            Ok(()) => Ok(()),
            Err(NoMemory) => Err(self.schedule.fail()),
        }
    }

    pub(crate) fn cut_or_fail(&mut self, to: u64) -> Result<(), Failed>
        requires { to ≤ length self.old.image }
        ensures done { OnOk result (self.new ≡ shortened self.old to) }
        ensures failed { OnErr result (self.new ≡ failing self.old) }
        ensures counted { self.old.faults ≤ self.new.faults }
        ensures listed { IsTrue (fails_next self.old.calls self.old.fails) → IsErr result }
    {
        if self.schedule.call() {
            return Err(self.schedule.fail());
        }
        match cut(self.alloc, &mut self.octets, &mut self.events, to as usize) {
            Ok(()) => Ok(()),
            Err(NoMemory) => Err(self.schedule.fail()),
        }
    }

    pub(crate) fn sync_or_fail(&mut self) -> Result<(), Failed>
        ensures done { OnOk result (self.new ≡ synced self.old) }
        ensures failed { OnErr result (self.new ≡ failing self.old) }
        ensures counted { self.old.faults ≤ self.new.faults }
        ensures listed { IsTrue (fails_next self.old.calls self.old.fails) → IsErr result }
    {
        if self.schedule.call() {
            return Err(self.schedule.fail());
        }
        match sync(&mut self.events) {
            Ok(()) => Ok(()),
            Err(NoMemory) => Err(self.schedule.fail()),
        }
    }
}
