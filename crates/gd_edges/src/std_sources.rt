//! Readers of std as sources.
ghost use Rattle.std.specs.Prelude.{◌≡◌, ◌<◌, ◌≤◌, length, take, Ok, is_err, IfOk, OnOk, OnErr, if◌then◌else◌};
ghost use Rattle.std.specs.Io.KnownBytes.{Consumes, Keeps, IsAtEnd};
ghost use Rattle.group_terms.specs.Faults.{Rose, one_more};

use crate::{Failed, Source};
use group_terms::counted_on;
use std::io::Read;
use std::marker::Model;

/// A reader of std as a source: it exposes what the reader exposes, and counts the reads that fail.
#[derive(Drop)]
pub struct StdSource<T> {
    reader: T,
    faults: u64,
}

impl<T> Model for StdSource<T> {
    ghost use Rattle.gd_edges.specs.Faults.{Faulty};

    ghost Value = { Faulty T };

    ghost view = { λ source. record { inner = source.reader; faults = source.faults } };
}

impl<T: Read> StdSource<T> {
    /// A source of what the reader gives, without a fault.
    pub fn new(reader: T) -> Self
        ensures { result ≡ record { inner = reader; faults = 0 } }
    {
        StdSource { reader, faults: 0 }
    }
}

impl<T: Read> Source for StdSource<T> {
    ghost shows = { λ source. record { octets = T.remaining source.inner; faults = source.faults } };

    /// One read. Where it fails, so does the call.
    fn take(&mut self, into: &mut [u8]) -> Result<usize, Failed>
        requires { 0 < length into.old }
        ensures count { IfOk result (λ n. n ≤ length into.new) }
        ensures moved { IfOk result
            (λ n. Consumes (T.remaining self.old.inner) (T.remaining self.new.inner) (take n into.new)) }
        ensures end { result ≡ Ok 0 → IsAtEnd (T.remaining self.old.inner) }
        ensures failed { OnErr result
            (Keeps (T.remaining self.old.inner) (T.remaining self.new.inner)) }
        ensures cause { OnErr result (Rose self.old.faults self.new.faults) }
        ensures no_fault { OnOk result (self.new.faults ≡ self.old.faults) }
        ensures counted { self.old.faults ≤ self.new.faults }
        ensures faults { self.new.faults ≡
            (if is_err result then one_more self.old.faults else self.old.faults) }
    {
        match self.reader.read(into) {
            Ok(n) => Ok(n),
            Err(_) => {
                self.faults = counted_on(self.faults);
                Err(Failed)
            }
        }
    }
}
