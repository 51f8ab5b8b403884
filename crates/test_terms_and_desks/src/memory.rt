//! A source and a sink in memory, and draws from a list.
use crate::draws::pass;
use gd_edges::{DrawList, Draws, Failed, Sink, Source, TextSink, TextSource};
use group_terms::{List, NoMemory};
use std::alloc::Global;

#[test]
fn texts_and_draws_in_memory(rt: HostRuntime) {
    let taken = are_taken(rt.alloc()) == Ok(true);
    let put = are_put(rt.alloc()) == Ok(true);
    assert!(rt; taken & put & (come_again(rt.alloc()) == Ok(true)));
}

/// A text comes in pieces, and fails at the calls listed.
fn are_taken(alloc: Global) -> Result<bool, NoMemory> {
    let mut source = source(alloc)?;
    let mut room = [b'-'; 3];
    let before = takes(&mut source, &mut room, Ok(3), b"abc", b"de")
        & takes(&mut source, &mut room, Err(Failed), b"abc", b"de");
    let rest = takes(&mut source, &mut room, Ok(2), b"dec", b"");
    Ok(before & rest & takes(&mut source, &mut room, Ok(0), b"dec", b""))
}

/// A source that fails at its second call.
fn source(alloc: Global) -> Result<TextSource, NoMemory> {
    let fails = List::copy_of(alloc, &[2, 9])?;
    Ok(TextSource::new(List::copy_of(alloc, b"abcde")?, fails))
}

/// Whether a call answers this, the room has that then, and so much is left.
fn takes(
    source: &mut TextSource,
    room: &mut [u8; 3],
    answer: Result<usize, Failed>,
    got: &[u8],
    rest: &[u8],
) -> bool {
    (source.take(room) == answer) & (room.as_slice() == got) & (source.rest() == rest)
}

/// A sink takes whole pieces, and fails at the calls listed.
fn are_put(alloc: Global) -> Result<bool, NoMemory> {
    let mut sink = TextSink::new(alloc, List::copy_of(alloc, &[2])?);
    let failed = puts(&mut sink, Ok(2), b"xy") & puts(&mut sink, Err(Failed), b"xy");
    Ok(failed & puts(&mut sink, Ok(2), b"xyxy"))
}

/// Whether a call answers this, and so much is written then.
fn puts(sink: &mut TextSink, answer: Result<usize, Failed>, written: &[u8]) -> bool {
    (sink.put(b"xy") == answer) & (sink.octets() == written)
}

/// Listed draws come again and again.
fn come_again(alloc: Global) -> Result<bool, NoMemory> {
    let blocks = List::copy_of(alloc, &[[1; 16], [2; 16]])?;
    if blocks.is_empty() {
        return Ok(false);
    }
    let mut draws = DrawList::new(blocks);
    pass(&mut draws, 1);
    Ok((draws.draw() == [2; 16]) & (draws.draw() == [1; 16]) & (draws.place() == 3))
}
