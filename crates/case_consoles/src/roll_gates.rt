//! A gate that knows which calls came, and at which they wait for each other.

use case_lines::Text;
use std::sync::atomic::AtomicU32;
use std::sync::atomic::Ordering::SeqCst;
use std::thread;
use work_shares::{Gate, MeetGate};

/// A gate at which the first call waits for the second one, and then each call until so many have come, but not for ever. It keeps their numbers.
#[derive(Drop)]
pub(crate) struct RollGate {
    /// How many calls wait for each other, and how often each of them looks.
    due: u32,
    looks: u64,
    first: MeetGate,
    /// A bit for each number below 32 that came. The lowest bit is for all other numbers.
    numbers: AtomicU32,
    calls: AtomicU32,
    /// How many calls saw that so many had come.
    met: AtomicU32,
}

impl RollGate {
    /// A gate for so many calls that wait for each other, each for so many looks.
    pub(crate) fn new(due: u32, looks: u64) -> Self {
        RollGate {
            due,
            looks,
            first: MeetGate::new(looks),
            numbers: AtomicU32::new(0),
            calls: AtomicU32::new(0),
            met: AtomicU32::new(0),
        }
    }

    /// Looks until so many calls have come, or all looks were made.
    fn wait(&self) {
        for _ in 0..self.looks {
            if self.calls.load(SeqCst) >= self.due {
                self.met.fetch_add(1, SeqCst);
                return;
            }
            thread::yield_now();
        }
    }

    /// Tells the numbers that came, how many calls there were, how many of them met the others, and whether the first one met the second.
    pub(crate) fn add_to(&self, text: &mut Text) {
        let mut left = self.numbers.load(SeqCst);
        text.add("reached");
        for number in 0..32u64 {
            if left % 2 == 1 {
                text.add_named(" ", number);
            }
            left /= 2;
        }
        text.add_named(" calls ", u64::from(self.calls.load(SeqCst)));
        text.add_named(" met ", u64::from(self.met.load(SeqCst)));
        text.add(if self.first.met() {
            " first met\n"
        } else {
            " first apart\n"
        });
    }
}

impl Gate for RollGate {
    fn reached(&self, call: u64) {
        self.first.reached(call);
        self.numbers.fetch_or(bit_of(call), SeqCst);
        self.calls.fetch_add(1, SeqCst);
        self.wait();
    }
}

/// The bit of a number.
fn bit_of(call: u64) -> u32 {
    if call < 32 { 1u32 << call as u32 } else { 1 }
}
