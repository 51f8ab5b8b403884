//! A sink in memory.
ghost use Rattle.std.specs.Prelude.{◌≡◌, ◌<◌, ◌≤◌, [], ◌++◌, length, take, Some, IsTrue, IsErr, is_err, IfOk, OnOk, OnErr, if◌then◌else◌};
ghost use Rattle.std.specs.Io.KnownBytes.{Appends, Keeps};
ghost use Rattle.group_terms.specs.Faults.{Rose, one_more, fails_next};

use crate::{Failed, Sink};
use group_terms::{List, Octets, Schedule};
use std::alloc::Global;
use std::marker::Model;

/// A sink that keeps its octets in memory, and fails at chosen calls.
#[derive(Drop)]
pub struct TextSink {
    octets: Octets,
    schedule: Schedule,
}

impl Model for TextSink {
    ghost use Rattle.gd_edges.specs.Texts.{TextWritten};

    ghost Value = { TextWritten };

    ghost view = { λ sink. record {
      written = sink.octets;
      calls = sink.schedule.calls;
      fails = sink.schedule.fails;
      faults = sink.schedule.faults;
    } };
}

impl TextSink {
    /// A sink without an octet, which fails at the calls listed, counted from 1. It takes no memory.
    pub fn new(alloc: Global, fails: List<u64>) -> Self
        ensures { result ≡ record { written = []; calls = 0; fails = fails; faults = 0 } }
    {
        TextSink {
            octets: List::new(alloc),
            schedule: Schedule::new(fails),
        }
    }

    /// All that was put.
    pub fn octets(&self) -> &[u8]
        ensures { result.now ≡ self.now.written }
    {
        self.octets.as_slice()
    }
}

impl Sink for TextSink {
    ghost shows = { λ sink. record { octets = Some sink.written; faults = sink.faults } };

    /// A call fails if it is listed or out of memory; any other takes the whole piece.
    fn put(&mut self, piece: &[u8]) -> Result<usize, Failed>
        requires { 0 < length piece.now }
        ensures count { IfOk result (λ n. (0 < n) × (n ≤ length piece.now)) }
        ensures appended { IfOk result
            (λ n. Appends (Some self.old.written) (Some self.new.written) (take n piece.now)) }
        ensures failed { OnErr result (Keeps (Some self.old.written) (Some self.new.written)) }
        ensures cause { OnErr result (Rose self.old.faults self.new.faults) }
        ensures no_fault { OnOk result (self.new.faults ≡ self.old.faults) }
        ensures counted { self.old.faults ≤ self.new.faults }
        ensures listed { IsTrue (fails_next self.old.calls self.old.fails) → IsErr result }
        ensures whole { IfOk result (λ n. n ≡ length piece.now) }
        ensures octets { OnOk result (self.new.written ≡ self.old.written ++ piece.now) }
        ensures calls { self.new.calls ≡ one_more self.old.calls }
        ensures fails { self.new.fails ≡ self.old.fails }
        ensures faults { self.new.faults ≡
            (if is_err result then one_more self.old.faults else self.old.faults) }
    {
        if self.schedule.call() {
            return Err(self.schedule.fail());
        }
        match self.octets.extend(piece) {
            Ok(()) => Ok(piece.len()),
            Err(_) => Err(self.schedule.fail()),
        }
    }
}
