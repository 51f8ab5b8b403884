//! A sum of its entries, for a desk.
ghost use Rattle.std.specs.Prelude.{◌≡◌, [], length};

use desk::Kept;
use group_terms::{List, Log, NoMemory};
use std::alloc::Global;
use std::sync::Wait;
use std::thread::Threads;

/// A sum of its entries, each at a rate that is borrowed.
#[derive(Drop)]
pub(crate) struct Sums<'a> {
    pub entries: Log<u64>,
    pub sum: u64,
    /// How many entries there were when its desk was made.
    pub begun: u64,
    /// The place of the entry that came last, or 0.
    pub last: u64,
    rate: &'a u64,
}

impl<'a> Sums<'a> {
    pub fn new(alloc: Global, rate: &'a u64) -> Self
        ensures { (result.entries.items ≡ []) × (result.begun ≡ 0) }
    {
        Sums {
            entries: Log::of(List::new(alloc)),
            sum: 0,
            begun: 0,
            last: 0,
            rate,
        }
    }

    /// The same, for another desk.
    pub fn begun_anew(self) -> Self
        ensures { length result.entries.items ≡ result.begun }
    {
        let mut sums = self;
        sums.begun = sums.entries.items().len() as u64;
        sums
    }
}

impl Kept for Sums<'_> {
    type Event = u64;

    type Entry = u64;

    type Answer = u64;

    type Tag = u64;

    ghost use Rattle.std.specs.Prelude.{◌≡◌, ⊤};

    ghost listed = { λ sums. sums.entries.items };

    ghost spare = { λ sums. sums.entries.spare };

    ghost tag = { λ sums. sums.begun };

    ghost begun = { λ begun. begun };

    ghost Same = { λ sums other. other ≡ record sums { entries = record sums.entries { spare = other.entries.spare } } };

    ghost Suits = { λ _ _. ⊤ };

    ghost Relates = { λ _ event entry _. entry ≡ event };

    fn take<R: Threads + Wait + Sync>(&mut self, _rt: &R, number: u64, event: u64) -> u64 {
        self.last = self.begun.saturating_add(number);
        self.sum = self.sum.wrapping_add(event.wrapping_mul(*self.rate));
        self.entries.add(event);
        self.sum
    }

    fn reserve(&mut self, turns: u64) -> Result<(), NoMemory> {
        self.entries.reserve(turns)
    }
}
