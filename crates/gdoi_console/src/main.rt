//! Runs a whole group from a script, in a journal: the words come from the command line, the script from standard input, the report goes to standard output, and the
//! journal is the file `group.journal` of the working folder.
#![tactic(auto)]

use console_run::{Ending, console, seed_of};
use file_disks::FileDisk;
use gd_edges::{ChaChaDraws, StdSink, StdSource, TestSigner, TestVerifier};
use std::alloc::AllocError;
use std::env;
use std::io::ErrorKind;
use std::process::ExitCode;
use std::sync::Wait;
use std::thread::Threads;
use work_shares::OpenGate;

/// The file that has the journal.
const JOURNAL: &str = "group.journal";

/// The streams of the seed that have the server's draws, and the members'.
const SERVER_STREAM: u8 = 0;

const MEMBER_STREAM: u8 = 1;

fn main(rt: HostRuntime) -> ExitCode {
    match run(&rt, &rt) {
        Ok(status) => ExitCode::from(status),
        Err(AllocError) => ExitCode::from(Ending::Memory.status()),
    }
}

/// Runs the console; its status.
fn run<T: Threads + Wait + Sync>(rt: &HostRuntime, threads: &T) -> Result<u8, AllocError> {
    let words = arguments(rt)?;
    let status = run_words(rt, threads, &words);
    drop(words);
    status
}

fn run_words<T: Threads + Wait + Sync>(
    rt: &HostRuntime,
    threads: &T,
    words: &Vec<String>,
) -> Result<u8, AllocError> {
    let disk = FileDisk::new(rt.alloc(), rt, JOURNAL).map_err(|_| AllocError)?;
    let draws = ChaChaDraws::new(seed_of(words), SERVER_STREAM);
    let mut peers = ChaChaDraws::new(seed_of(words), MEMBER_STREAM);
    let mut script = StdSource::new(rt.stdin());
    let mut out = StdSink::new(rt.stdout());
    let finished = console(
        threads,
        rt.alloc(),
        words,
        &mut script,
        &mut out,
        disk,
        TestSigner::new(),
        &TestVerifier::new(),
        draws,
        &mut peers,
        &OpenGate,
    );
    let status = finished.ending.status();
    drop(finished);
    Ok(status)
}

/// The words after the program's name; none where the arguments cannot be had as text.
fn arguments(rt: &HostRuntime) -> Result<Vec<String>, AllocError> {
    match env::args(rt) {
        Ok(args) => args.skip(1).collect(rt.alloc()),
        Err(error) => match error.kind() {
            ErrorKind::OutOfMemory => Err(AllocError),
            _ => Ok(Vec::new(rt.alloc())),
        },
    }
}
