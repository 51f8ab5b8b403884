//! Writers of std as sinks.
ghost use Rattle.std.specs.Prelude.{◌≡◌, ◌<◌, ◌≤◌, None, length, take, is_err, IfOk, OnOk, OnErr, if◌then◌else◌};
ghost use Rattle.std.specs.Io.KnownBytes.{Appends, Keeps};
ghost use Rattle.group_terms.specs.Faults.{Rose, one_more};
ghost use Rattle.gd_edges.specs.Texts.{AppendsFront};

use crate::{Failed, Sink};
use group_terms::counted_on;
use std::io::Write;
use std::marker::Model;

/// A writer of std as a sink: it exposes nothing, since a flush may fail after octets went out, and counts the calls
/// that fail.
#[derive(Drop)]
pub struct StdSink<T> {
    writer: T,
    faults: u64,
}

impl<T> Model for StdSink<T> {
    ghost use Rattle.gd_edges.specs.Faults.{Faulty};

    ghost Value = { Faulty T };

    ghost view = { λ sink. record { inner = sink.writer; faults = sink.faults } };
}

impl<T: Write> StdSink<T> {
    /// A sink that puts what it is given into the writer, without a fault.
    pub fn new(writer: T) -> Self
        ensures { result ≡ record { inner = writer; faults = 0 } }
    {
        StdSink { writer, faults: 0 }
    }
}

impl<T: Write> Sink for StdSink<T> {
    ghost shows = { λ sink. record { octets = None; faults = sink.faults } };

    /// One write and a flush. The call fails where either does, and where the writer takes no octet.
    fn put(&mut self, piece: &[u8]) -> Result<usize, Failed>
        requires { 0 < length piece.now }
        ensures count { IfOk result (λ n. (0 < n) × (n ≤ length piece.now)) }
        ensures appended { IfOk result (λ n. Appends None None (take n piece.now)) }
        ensures failed { OnErr result (Keeps None None) }
        ensures cause { OnErr result (Rose self.old.faults self.new.faults) }
        ensures no_fault { OnOk result (self.new.faults ≡ self.old.faults) }
        ensures counted { self.old.faults ≤ self.new.faults }
        // What the writer itself exposes: these octets come after its earlier ones.
        ensures reached { IfOk result
            (λ n. Appends (T.contents self.old.inner) (T.contents self.new.inner) (take n piece.now)) }
        // Also a call that fails brings nothing to it but a front of the piece.
        ensures front { AppendsFront (T.contents self.old.inner) (T.contents self.new.inner) piece.now }
        ensures faults { self.new.faults ≡
            (if is_err result then one_more self.old.faults else self.old.faults) }
    {
        if let Ok(n) = self.writer.write(piece)
            && n > 0
            && self.writer.flush().is_ok()
        {
            return Ok(n);
        }
        self.faults = counted_on(self.faults);
        Err(Failed)
    }
}
