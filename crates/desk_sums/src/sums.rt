//! The sum, and how it takes a number in.
ghost use Rattle.std.specs.Prelude.{◌≡◌, []};
ghost use Rattle.desk_sums.specs.Totals.{total_from};

use desk::Kept;
use group_terms::{List, Log, NoMemory};
use std::alloc::Global;
use std::sync::Wait;
use std::thread::Threads;

/// A sum, with all that was added to it.
#[derive(Drop)]
pub struct Sum {
    entries: Log<u64>,
    sum: u64,
    ghost summed: { sum ≡ total_from 0 entries.items },
}

impl Sum {
    pub fn new(alloc: Global) -> Self
        ensures { result.entries.items ≡ [] }
    {
        Sum {
            entries: Log::of(List::new(alloc)),
            sum: 0,
        }
    }

    pub fn value(&self) -> u64 {
        self.sum
    }
}

impl Kept for Sum {
    type Event = u64;

    type Entry = u64;

    type Answer = u64;

    type Tag = ();

    ghost use Rattle.std.specs.Prelude.{◌≡◌, [], ◌∷◌, ◌++◌, ⊤};
    ghost use Rattle.desk_sums.specs.Totals.{total_from};

    ghost listed = { λ sum. sum.entries.items };

    ghost spare = { λ sum. sum.entries.spare };

    ghost tag = { λ _. tt };

    ghost begun = { λ _. 0 };

    ghost Same = { λ sum other. (other.entries.items ≡ sum.entries.items) × (other.sum ≡ sum.sum) };

    ghost Suits = { λ _ _. ⊤ };

    ghost Relates = { λ before event entry answer.
        (entry ≡ event) × (answer ≡ total_from 0 (before ++ entry ∷ [])) };

    fn take<R: Threads + Wait + Sync>(&mut self, _rt: &R, _number: u64, event: u64) -> u64 {
        self.sum = self.sum.wrapping_add(event);
        self.entries.add(event);
        self.sum
    }

    fn reserve(&mut self, turns: u64) -> Result<(), NoMemory> {
        self.entries.reserve(turns)
    }
}
