//! A disk that sets a clock.
ghost use Rattle.std.specs.Prelude.{◌≤◌, ◌^◌, ⊤, false, length, None};
ghost use Rattle.group_terms.specs.Faults.{Rose};

use gd_disk::{Disk, Failed, MemDisk};
use group_terms::{List, NoMemory, counted_on};
use std::alloc::Global;
use std::sync::atomic::{AtomicUsize, Ordering};
use tree_store::{Replay, TreeStore};

/// More batches than any journal of the trials has.
const MOST_BATCHES: usize = 8;

/// A disk in memory that exposes nothing. At each sync it sets the clock to how many batches its journal has.
#[derive(Drop)]
pub(crate) struct ClockDisk<'a> {
    pub(crate) alloc: Global,
    pub(crate) disk: MemDisk,
    pub(crate) clock: &'a AtomicUsize,
    pub(crate) faults: u64,
}

impl ClockDisk<'_> {
    fn fail(&mut self) -> Failed
        ensures rose { Rose self.old.faults self.new.faults }
        ensures no_less { self.old.faults ≤ self.new.faults }
    {
        self.faults = counted_on(self.faults);
        Failed
    }
}

impl Disk for ClockDisk<'_> {
    ghost faults = { λ disk. disk.faults };

    ghost honest = { λ _. false };

    ghost image = { λ _. None };

    ghost moment = { λ _. 0 };

    ghost may_leave = { λ _ _. ⊤ };

    ghost left_since = { λ _ _ _. ⊤ };

    ghost reads_stay = { λ disk file is. tt };

    ghost counts_now = { λ disk t c earlier now. now };

    ghost only_now = { λ disk c left. left };

    fn read(&mut self, at: u64, into: &mut [u8]) -> Result<usize, Failed> {
        match self.disk.read(at, into) {
            Ok(count) => Ok(count),
            Err(Failed) => Err(self.fail()),
        }
    }

    fn write_at(&mut self, at: u64, octets: &[u8]) -> Result<(), Failed> {
        if at > self.disk.image().len() as u64 {
            return Err(self.fail());
        }
        match self.disk.write_at(at, octets) {
            Ok(()) => Ok(()),
            Err(Failed) => Err(self.fail()),
        }
    }

    fn cut(&mut self, to: u64) -> Result<(), Failed> {
        if to > self.disk.image().len() as u64 {
            return Err(self.fail());
        }
        match self.disk.cut(to) {
            Ok(()) => Ok(()),
            Err(Failed) => Err(self.fail()),
        }
    }

    fn sync(&mut self) -> Result<(), Failed> {
        match batches_in(self.alloc, self.disk.image()) {
            Ok(count) => {
                self.clock.store(count, Ordering::SeqCst);
                Ok(())
            }
            Err(NoMemory) => Err(self.fail()),
        }
    }
}

/// How many batches a journal has; none where it is not that of a group.
fn batches_in(alloc: Global, journal: &[u8]) -> Result<usize, NoMemory>
    requires { length journal.now ≤ 2 ^ 62 }
{
    let copy = List::copy_of(alloc, journal)?;
    Ok(count_batches(alloc, MemDisk::holding(alloc, copy)))
}

fn count_batches(alloc: Global, disk: MemDisk) -> usize {
    match TreeStore::open(alloc, disk) {
        Ok(mut store) => {
            let count = count_in(alloc, &mut store);
            drop(store);
            count
        }
        Err(_) => 0,
    }
}

fn count_in(alloc: Global, store: &mut TreeStore<MemDisk>) -> usize {
    let Ok(mut replay) = Replay::begin(alloc, &store.head()) else {
        return 0;
    };
    let mut count = 0usize;
    for _ in 0..MOST_BATCHES {
        if has_next(alloc, store, &mut replay) {
            count = count.saturating_add(1);
        }
    }
    drop(replay);
    count
}

fn has_next(alloc: Global, store: &mut TreeStore<MemDisk>, replay: &mut Replay) -> bool {
    matches!(store.next_batch(alloc, replay), Ok(true))
}
