//! A reader and a writer that fail after any number of octets.

use std::io;
use std::io::{ErrorKind, Read, Write};
use std::sync::atomic::{AtomicUsize, Ordering};

/// A reader that gives at most so many octets a call, and fails when no call is left.
#[derive(Drop)]
pub(crate) struct Pieces<'a> {
    pub(crate) rest: &'a [u8],
    pub(crate) most: usize,
    pub(crate) calls_left: usize,
}

impl Read for Pieces<'_> {
    fn read(&mut self, buf: &mut [u8]) -> io::Result<usize> {
        if self.calls_left == 0 {
            return Err(io::Error::new(ErrorKind::BrokenPipe, "no reader"));
        }
        self.calls_left -= 1;
        let n = self.most.min(buf.len()).min(self.rest.len());
        buf[..n].copy_from_slice(&self.rest[..n]);
        self.rest = &self.rest[n..];
        Ok(n)
    }
}

/// A writer that takes one octet a call, and fails when no call is left. It compares what it takes with a report, and counts lines.
#[derive(Drop)]
pub(crate) struct OctetByOctet<'a> {
    pub(crate) calls_left: usize,
    /// What of the report did not come yet, and whether nothing else came.
    pub(crate) due: &'a [u8],
    pub(crate) is_due: bool,
    /// How the lines begin that are counted, how many came, and whether at each of them the clock said its number.
    pub(crate) counted: &'a [u8],
    pub(crate) lines: usize,
    pub(crate) in_time: bool,
    pub(crate) clock: &'a AtomicUsize,
}

impl Write for OctetByOctet<'_> {
    fn write(&mut self, buf: &[u8]) -> io::Result<usize> {
        if self.calls_left == 0 || buf.is_empty() {
            return Err(io::Error::new(ErrorKind::BrokenPipe, "no writer"));
        }
        self.calls_left -= 1;
        if buf.starts_with(self.counted) {
            self.lines = self.lines.saturating_add(1);
            self.in_time &= self.clock.load(Ordering::SeqCst) == self.lines;
        }
        self.is_due &= self.due.first() == buf.first();
        self.due = self.due.get(1..).unwrap_or_default();
        Ok(1)
    }

    fn flush(&mut self) -> io::Result<()> {
        Ok(())
    }
}
