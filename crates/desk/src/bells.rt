//! How long threads stay ready to run, and where they sleep then until their ticket is served.
use crossbeam_utils::sync::EventCount;
use std::cell::Cell;
use std::sync::atomic::AtomicU64;
use std::sync::atomic::Ordering::SeqCst;
use std::{array, hint};

/// As many as a desk may have passes, so no two tickets that are out at once share one.
const BELLS: usize = 64;

/// A bell for each ticket. Who passes on wakes the one thread that is next.
#[derive(Drop)]
pub(crate) struct Bells {
    each: [EventCount; BELLS],
    /// How many threads sleep, or are about to.
    pub sleepers: AtomicU64,
}

impl Bells {
    pub fn new() -> Self {
        let each = array::from_fn(|_| EventCount::new());
        Bells {
            each,
            sleepers: AtomicU64::new(0),
        }
    }

    pub fn of(&self, ticket: u64) -> &EventCount {
        &self.each[(ticket % BELLS as u64) as usize]
    }

    /// Wakes who sleeps with this ticket, once it is served.
    pub fn ring(&self, ticket: u64) {
        if self.sleepers.load(SeqCst) != 0 {
            self.of(ticket).notify_all();
        }
    }
}

/// A thread that is as near as this to its turn looks more often.
const NEAR: u64 = 4;

/// How often a thread looks whether it is served before it sleeps. It never yields, since it would wait for whatever else has work on its processor;
/// one that is woken goes on at once.
const LOOKS: u32 = 8;

/// How often one looks that is near.
const NEAR_LOOKS: u32 = 256;

/// How many rounds pass between two looks.
const ROUNDS: u32 = 16;

/// How long a thread has stayed ready to run.
#[derive(Drop)]
pub(crate) struct Patience {
    looks: Cell<u32>,
}

impl Patience {
    pub fn new() -> Self {
        Patience {
            looks: Cell::new(0),
        }
    }

    /// Lets a moment pass. `false` where it is time to sleep.
    pub fn lasts(&self, turns_before: u64) -> bool {
        let most = if turns_before < NEAR {
            NEAR_LOOKS
        } else {
            LOOKS
        };
        let looks = self.looks.get();
        if looks >= most {
            return false;
        }
        self.looks.set(looks + 1);
        for _ in 0..ROUNDS {
            hint::spin_loop();
        }
        true
    }
}
