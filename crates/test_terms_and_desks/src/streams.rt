//! Readers and writers of std as sources and sinks.
ghost use Rattle.std.specs.Prelude.{◌≤◌, IfOk};

use gd_edges::{Sink, Source, StdSink, StdSource};
use std::io;
use std::io::{ErrorKind, Read, Write};

#[test]
fn a_reader_of_std_is_a_source(rt: HostRuntime) {
    let given = gives_abc(&mut StdSource::new(b"abc".as_slice()));
    let at_last = gives_at_last(&mut StdSource::new(Trouble::Once));
    assert!(rt; given & at_last & fails(&mut StdSource::new(Trouble::AtOnce)));
}

fn gives_abc<S: Source>(source: &mut S) -> bool {
    let mut room = [b'-'; 2];
    let two = (source.take(&mut room) == Ok(2)) & (room == *b"ab");
    let one = (source.take(&mut room) == Ok(1)) & (room == *b"cb");
    two & one & (source.take(&mut room) == Ok(0)) & (room == *b"cb")
}

fn fails<S: Source>(source: &mut S) -> bool {
    source.take(&mut [b'-'; 2]).is_err()
}

/// A call that failed is not made again: the next one goes through.
fn gives_at_last<S: Source>(source: &mut S) -> bool {
    fails(source) & (source.take(&mut [b'-'; 2]) == Ok(1))
}

#[test]
fn a_writer_of_std_is_a_sink(rt: HostRuntime) {
    let mut written = Vec::new(rt.alloc());
    let counted = takes_abc(&mut StdSink::new(&mut written));
    let taken = counted & (written.as_slice() == b"abc".as_slice());
    drop(written);
    assert!(rt; taken & puts_fail() & takes_at_last(&mut StdSink::new(Trouble::Once)));
}

fn takes_abc<S: Sink>(sink: &mut S) -> bool {
    (sink.put(b"ab") == Ok(2)) & (sink.put(b"c") == Ok(1))
}

fn puts_fail() -> bool {
    put_fails(Trouble::AtOnce) & put_fails(Trouble::TakesNothing) & put_fails(Trouble::AtFlush)
}

fn put_fails(trouble: Trouble) -> bool {
    StdSink::new(trouble).put(b"ab").is_err()
}

fn takes_at_last<S: Sink>(sink: &mut S) -> bool {
    sink.put(b"ab").is_err() & (sink.put(b"ab") == Ok(1))
}

/// What goes wrong at a reader or writer.
#[derive(Clone, Copy)]
enum Trouble {
    /// Each call.
    AtOnce,
    /// The first call. Each other one moves an octet.
    Once,
    Past,
    TakesNothing,
    AtFlush,
}

impl Trouble {
    /// How many octets a call moves that may move `octets`.
    fn call(&mut self, octets: usize) -> io::Result<usize>
        ensures { IfOk result (λ count. count ≤ octets) }
    {
        match *self {
            Trouble::AtOnce => Err(io::Error::new(ErrorKind::BrokenPipe, "each call")),
            Trouble::Once => {
                *self = Trouble::Past;
                Err(io::Error::new(ErrorKind::BrokenPipe, "the first call"))
            }
            Trouble::Past => Ok(octets.min(1)),
            Trouble::TakesNothing => Ok(0),
            Trouble::AtFlush => Ok(octets),
        }
    }
}

impl Read for Trouble {
    fn read(&mut self, buf: &mut [u8]) -> io::Result<usize> {
        self.call(buf.len())
    }
}

impl Write for Trouble {
    fn write(&mut self, buf: &[u8]) -> io::Result<usize> {
        self.call(buf.len())
    }

    fn flush(&mut self) -> io::Result<()> {
        match self {
            Trouble::AtFlush => Err(io::Error::new(ErrorKind::BrokenPipe, "no flush")),
            _ => Ok(()),
        }
    }
}
