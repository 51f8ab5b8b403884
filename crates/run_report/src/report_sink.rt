//! Putting the report into a sink.
ghost use Rattle.std.specs.Prelude.{◌<◌, ◌≤◌, ◌≡◌, [], length, IfErr, OnOk, OnErr, Err};
ghost use Rattle.script_text.specs.Report.{entry_text};
ghost use Rattle.run_report.specs.declared.endings.Ending.TheVariants.{Sink as SinkEnding};
ghost use Rattle.run_report.specs.Reports.{Puts, BreaksOff};
ghost use Rattle.run_report.specs.Ends.{TextBreaksOff};

use crate::stops::Stop;
use gd_edges::{Failed, Sink};
use group_model::{Entry, List, NoMemory};
use script_text::report_entry;
use std::alloc::Global;

/// Puts the report of an entry, line by line.
pub fn report<K: Sink>(alloc: Global, entry: &Entry, out: &mut K) -> Result<(), Stop>
    ensures ok { OnOk result (Puts (K.shows out.old) (K.shows out.new) (entry_text entry.now)) }
    ensures breaks { IfErr result (λ stop. TextBreaksOff stop (K.shows out.old) (K.shows out.new) (entry_text entry.now)) }
{
    let mut text = List::new(alloc);
    match report_entry(alloc, entry, &mut text) {
        Ok(()) => {}
        Err(NoMemory) => return Err(Stop::Unreported),
    }
    match put_lines(text.as_slice(), out) {
        Ok(()) => Ok(()),
        Err(Failed) => Err(Stop::Sink),
    }
}

/// Puts a text line by line. Where the sink takes a part of a line, the next piece is the rest of that line.
pub fn put_lines<K: Sink>(text: &[u8], out: &mut K) -> Result<(), Failed>
    ensures ok { OnOk result (Puts (K.shows out.old) (K.shows out.new) text.now) }
    ensures failed { OnErr result (BreaksOff SinkEnding (K.shows out.old) (K.shows out.new) text.now) }
{
    let mut rest = text;
    while !rest.is_empty() {
        let (line, others) = rest.split_at(line_length(rest));
        put_all(line, out)?;
        rest = others;
    }
    Ok(())
}

/// How many octets the first line of a text has, with its line feed.
fn line_length(text: &[u8]) -> usize
    requires { 0 < length text.now }
    ensures some { 0 < result }
    ensures within { result ≤ length text.now }
{
    match text.iter().position(|octet| *octet == b'\n') {
        Some(place) => place + 1,
        None => text.len(),
    }
}

fn put_all<K: Sink>(piece: &[u8], out: &mut K) -> Result<(), Failed>
    ensures ok { OnOk result (Puts (K.shows out.old) (K.shows out.new) piece.now) }
    ensures failed { OnErr result (BreaksOff SinkEnding (K.shows out.old) (K.shows out.new) piece.now) }
{
    let mut rest = piece;
    while !rest.is_empty() {
        let n = out.put(rest)?;
        let (_, others) = rest.split_at(n);
        rest = others;
    }
    Ok(())
}
