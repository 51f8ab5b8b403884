//! Runs that no line of a script can show: sources and sinks that fail after any number of octets, the most lines of a script, SAs that are refused, and
//! that a batch is on the device before its line.

use crate::clock_disk::ClockDisk;
use crate::runs::run;
use crate::streams::{OctetByOctet, Pieces};
use console_run::Ending;
use gd_disk::MemDisk;
use gd_edges::{DrawList, StdSink, StdSource};
use group_terms::{List, NoMemory};
use std::alloc::{AllocError, Global};
use std::sync::Wait;
use std::sync::atomic::AtomicUsize;
use std::thread::Threads;
use work_shares::OpenGate;

/// Whether the trial of this name holds; `None` where there is none.
pub fn tried<T: Threads + Wait + Sync>(rt: &T, alloc: Global, name: &str) -> Option<bool> {
    match name {
        "pieces" => Some(pieces_of_any_size_make_the_same_report(rt, alloc)),
        "source" => Some(a_source_may_fail_at_any_call(rt, alloc)),
        "sink" => Some(a_sink_may_fail_at_any_octet(rt, alloc)),
        "limits" => Some(scripts_are_taken_up_to_their_limits(rt, alloc)),
        "clock" => Some(each_batch_is_on_the_device_before_its_line(rt, alloc)),
        "introductions" => Some(refused_introductions_are_tried_again(rt, alloc)),
        _ => None,
    }
}

/// What is drawn for members: with all of these the SAs of the first three have other cookies, with 7 the second one's are those of the first.
const BLOCKS: [[u8; 16]; 8] = [
    [1; 16], [2; 16], [3; 16], [4; 16], [5; 16], [6; 16], [7; 16], [8; 16],
];

const GOOD_LINES: &[u8] = b"deny b\nbatch\nlose a\ntogether\nbatch\nend\n";

const BAD_SIXTH: &[u8] = b"deny b\nbatch\ntogether\nbatch\nend\njoin A\njoin b\n";

const TOLD_BAD: &[u8] =
    b"new depth 2\nrule 1\nepoch 1 sequence 0 members 0\ntogether 1\nepoch 2 sequence 0 members 0\ntogether done\nend 2 line 6\n";

/// Runs a script, of which so many octets come a call, where so many calls of its source and of its sink go well. Whether it ends so, with so many entries,
/// with so many octets of the script that no call took, and with so many of the report that did not come.
fn is_run<T: Threads + Wait + Sync>(
    rt: &T,
    alloc: Global,
    most: usize,
    calls: (usize, usize),
    script: &[u8],
    report: &[u8],
    ran: (Ending, usize),
    left: (usize, usize),
) -> bool {
    let clock = AtomicUsize::new(0);
    let mut reader = Pieces {
        rest: script,
        most,
        calls_left: calls.0,
    };
    let mut writer = OctetByOctet {
        calls_left: calls.1,
        due: report,
        is_due: true,
        counted: b"end",
        lines: 0,
        in_time: true,
        clock: &clock,
    };
    let is_ran = run_new(rt, alloc, &mut reader, &mut writer, &BLOCKS) == Some(ran);
    is_ran & writer.is_due & ((reader.rest.len(), writer.due.len()) == left)
}

/// Scripts, their reports, how they end and with how many entries, and how many octets no call has taken at the end.
static SCRIPTS: &[(&[u8], &[u8], Ending, usize, usize)] = &[
    (
        GOOD_LINES,
        b"new depth 2\nrule 1\nepoch 1 sequence 0 members 0\na nothing\ntogether 1\nepoch 2 sequence 0 members 0\ntogether done\nend 0\n",
        Ending::Whole,
        7,
        0,
    ),
    (BAD_SIXTH, TOLD_BAD, Ending::BadLine { line: 6 }, 6, 7),
    (
        b"jo\nbatch\n",
        b"new depth 2\nend 2 line 1\n",
        Ending::BadLine { line: 1 },
        1,
        6,
    ),
    (
        b"batch\njoin",
        b"new depth 2\nepoch 1 sequence 0 members 0\nend 2 line 2\n",
        Ending::BadLine { line: 2 },
        2,
        0,
    ),
    (
        b"together\nbatch\nnow\nend",
        b"new depth 2\ntogether 2\nepoch 1 sequence 0 members 0\ntogether done\nnow epoch 1 sequence 0\nend 0\n",
        Ending::Whole,
        5,
        0,
    ),
    (
        b"batch\ntogether\nbatch\nshow\nend\nbatch\n",
        b"new depth 2\nepoch 1 sequence 0 members 0\nend 2 line 4\n",
        Ending::BadLine { line: 4 },
        2,
        10,
    ),
    (
        b"batch\ntogether\nbatch",
        b"new depth 2\nepoch 1 sequence 0 members 0\nend 2 line 2\n",
        Ending::BadLine { line: 2 },
        2,
        0,
    ),
];

/// Calls that all go well.
const ALL: (usize, usize) = (usize::MAX, usize::MAX);

/// A source may give one octet a call, or all at once. It is asked for nothing after a faulty line.
fn pieces_of_any_size_make_the_same_report<T: Threads + Wait + Sync>(
    rt: &T,
    alloc: Global,
) -> bool {
    let mut holds = true;
    for (script, report, ending, entries, left) in SCRIPTS {
        let ran = (*ending, *entries);
        holds &= is_run(rt, alloc, 1, ALL, script, report, ran, (*left, 0))
            & is_run(rt, alloc, usize::MAX, ALL, script, report, ran, (0, 0));
    }
    holds
}

/// The first and the last count of calls that go well, how many entries there are then, and the report.
static SOURCE_CALLS: &[(usize, usize, usize, &[u8])] = &[
    (0, 6, 1, b"new depth 2\nend 3\n"),
    (7, 12, 2, b"new depth 2\nrule 1\nend 3\n"),
    (
        13,
        19,
        3,
        b"new depth 2\nrule 1\nepoch 1 sequence 0 members 0\nend 3\n",
    ),
    (
        20,
        38,
        4,
        b"new depth 2\nrule 1\nepoch 1 sequence 0 members 0\na nothing\nend 3\n",
    ),
    (
        39,
        39,
        7,
        b"new depth 2\nrule 1\nepoch 1 sequence 0 members 0\na nothing\ntogether 1\nepoch 2 sequence 0 members 0\ntogether done\nend 3\n",
    ),
];

/// Each call of a source of one octet a call fails in turn. The lines whose line feed came before are run, but for those of a block without its end.
fn a_source_may_fail_at_any_call<T: Threads + Wait + Sync>(rt: &T, alloc: Global) -> bool {
    let mut holds = true;
    for (first, last, entries, report) in SOURCE_CALLS {
        let ran = (Ending::Source, *entries);
        for calls in *first..=*last {
            let left = GOOD_LINES.len().saturating_sub(calls);
            holds &= is_run(
                rt,
                alloc,
                1,
                (calls, usize::MAX),
                GOOD_LINES,
                report,
                ran,
                (left, 0),
            );
        }
    }
    holds
}

/// The first and the last count of octets that a sink takes of `TOLD_BAD`, how the run ends then and with how many entries, and how many octets of the
/// script no call has taken.
static SINK_CALLS: &[(usize, usize, Ending, usize, usize)] = &[
    (0, 11, Ending::Sink, 1, 46),
    (12, 18, Ending::Sink, 2, 39),
    (19, 47, Ending::Sink, 3, 33),
    (48, 101, Ending::Sink, 6, 14),
    (102, 114, Ending::Sink, 6, 7),
    (115, 115, Ending::BadLine { line: 6 }, 6, 7),
];

fn a_sink_may_fail_at_any_octet<T: Threads + Wait + Sync>(rt: &T, alloc: Global) -> bool {
    let mut holds = true;
    for (first, last, ending, entries, left) in SINK_CALLS {
        let ran = (*ending, *entries);
        for calls in *first..=*last {
            let missing = TOLD_BAD.len().saturating_sub(calls);
            holds &= is_run(
                rt,
                alloc,
                1,
                (usize::MAX, calls),
                BAD_SIXTH,
                TOLD_BAD,
                ran,
                (*left, missing),
            );
        }
    }
    holds
}

/// An octet, how often it may come in a script of it alone, and how one more ends the run: at which line, and with which report.
static LIMITS: &[(u8, usize, u32, &[u8])] = &[
    (b' ', 200, 1, b"new depth 2\nend 2 line 1\n"),
    (b'\n', 16_384, 16_385, b"new depth 2\nend 2 line 16385\n"),
];

/// Lines have at most 200 octets, and there are at most 16,384 of them.
fn scripts_are_taken_up_to_their_limits<T: Threads + Wait + Sync>(rt: &T, alloc: Global) -> bool {
    let mut holds = true;
    for (octet, most, line, report) in LIMITS {
        holds &= is_limit(rt, alloc, *octet, *most, *line, report) == Ok(true);
    }
    holds
}

fn is_limit<T: Threads + Wait + Sync>(
    rt: &T,
    alloc: Global,
    octet: u8,
    most: usize,
    line: u32,
    report: &[u8],
) -> Result<bool, AllocError> {
    let script = vec![in alloc; octet; most.saturating_add(1)]?;
    let within = script.get(1..).unwrap_or_default();
    let past = (Ending::BadLine { line }, 1);
    let whole = (Ending::Whole, 1);
    let holds = is_run(
        rt,
        alloc,
        1,
        ALL,
        within,
        b"new depth 2\nend 0\n",
        whole,
        (0, 0),
    ) & is_run(rt, alloc, 1, ALL, &script, report, past, (0, 0));
    drop(script);
    Ok(holds)
}

/// How many lines with this beginning the report of a script has, and whether each of them came when the journal on the device had as many batches.
fn count_lines<T: Threads + Wait + Sync>(
    rt: &T,
    alloc: Global,
    script: &[u8],
    blocks: &[[u8; 16]],
    counted: &[u8],
) -> Option<(usize, bool)> {
    let clock = AtomicUsize::new(0);
    let mut reader = Pieces {
        rest: script,
        most: usize::MAX,
        calls_left: usize::MAX,
    };
    let mut writer = OctetByOctet {
        calls_left: usize::MAX,
        due: b"",
        is_due: true,
        counted,
        lines: 0,
        in_time: true,
        clock: &clock,
    };
    match run_new(rt, alloc, &mut reader, &mut writer, blocks) {
        Some((Ending::Whole, _)) => Some((writer.lines, writer.in_time)),
        _ => None,
    }
}

/// A batch that lets members in, one that lets one out and one in, one that changes nothing, one that empties the group, and one in a block.
fn each_batch_is_on_the_device_before_its_line<T: Threads + Wait + Sync>(
    rt: &T,
    alloc: Global,
) -> bool {
    let script =
        b"allow *\njoin a\njoin b\nbatch\nleave a\njoin c\nbatch\nbatch\nleave b\nleave c\nbatch\ntogether\njoin a\nbatch\nend\n";
    count_lines(rt, alloc, script, &BLOCKS, b"epoch ") == Some((5, true))
}

/// Who was refused an introduction is introduced again at its next join, in a block too.
fn refused_introductions_are_tried_again<T: Threads + Wait + Sync>(rt: &T, alloc: Global) -> bool {
    let script = b"allow *\njoin a\njoin b\njoin b\nagain b\njoin b\ntogether\njoin b\nend\n";
    let refused = b"b refused phase-taken\n";
    matches!(
        count_lines(rt, alloc, script, &BLOCKS[..7], refused),
        Some((4, _))
    )
}

/// Runs a script on a new group, whose tree has four leaves, where these blocks are drawn for its members again and again: how it ended, and how many
/// entries its history has. `None` where memory ran out before it began, or there is no block.
fn run_new<T: Threads + Wait + Sync>(
    rt: &T,
    alloc: Global,
    reader: &mut Pieces<'_>,
    writer: &mut OctetByOctet<'_>,
    blocks: &[[u8; 16]],
) -> Option<(Ending, usize)> {
    let words = words(alloc).ok()?;
    let peers = peers(alloc, blocks).ok()?;
    let ran = run_words(rt, alloc, &words, reader, writer, peers);
    drop(words);
    Some(ran)
}

fn run_words<T: Threads + Wait + Sync>(
    rt: &T,
    alloc: Global,
    words: &[String],
    reader: &mut Pieces<'_>,
    writer: &mut OctetByOctet<'_>,
    mut peers: DrawList,
) -> (Ending, usize) {
    let disk = ClockDisk {
        alloc,
        disk: MemDisk::new(alloc),
        clock: writer.clock,
        faults: 0,
    };
    let mut source = StdSource::new(reader);
    let mut sink = StdSink::new(writer);
    let (ending, entries, disk) = run(
        rt,
        alloc,
        words,
        &mut source,
        &mut sink,
        disk,
        &mut peers,
        &OpenGate,
    );
    drop(disk);
    drop(peers);
    (ending, entries)
}

fn words(alloc: Global) -> Result<Vec<String>, NoMemory> {
    let mut words = Vec::new(alloc);
    words.push(String::from_str(alloc, "--new=2")?)?;
    Ok(words)
}

fn peers(alloc: Global, blocks: &[[u8; 16]]) -> Result<DrawList, NoMemory> {
    let blocks = List::copy_of(alloc, blocks)?;
    if blocks.is_empty() {
        return Err(NoMemory);
    }
    Ok(DrawList::new(blocks))
}
