//! Runs the console on disks in memory that fail and crash where a case says so. Each line of standard input says something of the next run, or asks for it; a run is
//! answered by its report, its status with the number of a faulty line, and the journal that it left.
//!
//! ```text
//! case NAME                        an empty disk
//! faults CALL ..                   an empty disk that fails at these of its calls, counted from 1
//! disk OCTETS                      a disk with these octets
//! source CALL ..                   the source of the next run fails at these of its calls
//! sink CALL ..                     its sink does
//! words WORD ..                    its words
//! > LINE                           a line of its script
//! gate CALLS LOOKS                 at its gate the first call of a block waits for the second one, and then each call until so many have come, for so many looks
//! due HASH                         it may be told by octets so that this is the SHA-256 of that, in hexadecimal
//! run octets|hashes|outline        the run, on the disk that the last one left
//! run due                          the same, of which is told whether it is one of those that are due
//! run report                       the same, of which its report and its ending are told, and not its journal
//! run batches                      the same, of which is told how many batches were made, and how many refused
//! run kept                         the same, of which is told whether the group opens with each batch that the run before it reported, and at most one more
//! reached                          the calls that came to the gate
//! crash CHOICE                     the disk is as a crash of this number leaves it
//! trial NAME                       whether a trial holds, which is what no line of a script can show
//! ```
//!
//! A run is told in full, by the SHA-256 of its report and of its journal, or in full but for the octets of its pushes. Where several workers run the lines of a block the
//! order of their turns is free: such a run is one of those that are due, or what is told of it does not depend on the order. `bench/reference.py` says what is due.
#![tactic(auto)]

use case_lines::{Text, print_text};
use cases::Case;
use laws::call_laws;
use std::io;
use std::io::{BufRead, BufReader, ErrorKind};
use std::sync::Wait;
use std::thread::Threads;

mod cases;
mod clock_disk;
mod laws;
mod roll_gates;
mod runs;
mod streams;
mod texts;
mod trials;

fn main(rt: HostRuntime) -> io::Result<()> {
    call_laws();
    let mut case = Case::begin(rt.alloc());
    let answered = answer_all(&rt, &rt, &mut case);
    drop(case);
    answered
}

/// Answers standard input, line by line.
fn answer_all<T: Threads + Wait + Sync>(
    rt: &HostRuntime,
    threads: &T,
    case: &mut Case,
) -> io::Result<()> {
    let input = BufReader::new(rt.alloc(), rt.reader())?;
    for line in input.lines(rt.alloc()) {
        let line = line?;
        answer(rt, threads, case, line.as_str())?;
    }
    Ok(())
}

fn answer<T: Threads + Wait + Sync>(
    rt: &HostRuntime,
    threads: &T,
    case: &mut Case,
    line: &str,
) -> io::Result<()> {
    let mut text = Text::new(rt.alloc());
    match case.answer(threads, rt.alloc(), line, &mut text) {
        Some(()) => print_text(rt, &text),
        None => Err(ErrorKind::InvalidInput.into()),
    }
}
