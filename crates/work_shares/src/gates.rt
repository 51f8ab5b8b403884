//! Gates that calls reach.
use std::sync::atomic::AtomicBool;
use std::sync::atomic::Ordering::SeqCst;
use std::thread;

/// What each worker tells that begins a call. It always returns, and cannot fail.
pub trait Gate {
    /// The call of this number, from 1, is about to begin.
    fn reached(&self, call: u64);
}

/// A gate that is always open.
#[derive(Drop)]
pub struct OpenGate;

impl Gate for OpenGate {
    fn reached(&self, _call: u64) {}
}

/// A gate at which the first call waits for the second one, but not for ever. By it a test sees that two calls are under way at once.
#[derive(Drop)]
pub struct MeetGate {
    looks: u64,
    /// Whether the second call was reached.
    second: AtomicBool,
    /// Whether the first call saw that.
    met: AtomicBool,
}

impl MeetGate {
    /// The first call looks so often whether the second one was reached.
    pub fn new(looks: u64) -> Self {
        MeetGate {
            looks,
            second: AtomicBool::new(false),
            met: AtomicBool::new(false),
        }
    }

    /// Whether the second call was reached while the first one waited.
    pub fn met(&self) -> bool {
        self.met.load(SeqCst)
    }

    /// Looks until the second call was reached, or all looks were made.
    fn wait(&self) {
        for _ in 0..self.looks {
            if self.second.load(SeqCst) {
                self.met.store(true, SeqCst);
                return;
            }
            thread::yield_now();
        }
    }
}

impl Gate for MeetGate {
    fn reached(&self, call: u64) {
        match call {
            1 => self.wait(),
            2 => self.second.store(true, SeqCst),
            _ => {}
        }
    }
}
