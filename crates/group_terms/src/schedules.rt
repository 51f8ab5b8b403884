//! Which calls of an object fail, and the counts of its calls and of its faults.
ghost use Rattle.std.specs.Prelude.{◌≡◌, ◌≤◌};
ghost use Rattle.group_terms.specs.Faults.{Rose, one_more, fails_next};

use crate::faults::counted_on;
use crate::{Failed, List};

/// How many calls an object had, which of them fail, and how many did.
#[derive(Drop)]
pub struct Schedule {
    pub calls: u64,
    pub fails: List<u64>,
    pub faults: u64,
}

impl Schedule {
    /// The schedule of an object before its first call. It takes no memory.
    pub fn new(fails: List<u64>) -> Self
        ensures { result ≡ record { calls = 0; fails = fails; faults = 0 } }
    {
        Schedule {
            calls: 0,
            fails,
            faults: 0,
        }
    }

    /// Counts a call, and says whether it is listed as one that fails.
    pub fn call(&mut self) -> bool
        ensures listed { result ≡ fails_next self.old.calls self.old.fails }
        ensures counted { self.new ≡ record self.old { calls = one_more self.old.calls } }
    {
        self.calls = counted_on(self.calls);
        self.fails.as_slice().contains(&self.calls)
    }

    /// Counts a fault.
    pub fn fail(&mut self) -> Failed
        ensures counted { self.new ≡ record self.old { faults = one_more self.old.faults } }
        ensures rose { Rose self.old.faults self.new.faults }
        ensures no_less { self.old.faults ≤ self.new.faults }
    {
        self.faults = counted_on(self.faults);
        Failed
    }
}
