//! A run of the console.

use console_run::{Ending, Finished, console, seed_of};
use gd_disk::Disk;
use gd_edges::{ChaChaDraws, Draws, Sink, Source, TestSigner, TestVerifier};
use std::alloc::Global;
use std::sync::Wait;
use std::thread::Threads;
use work_shares::Gate;

/// Runs the console on a disk, with a gate for the lines of its blocks: how it ended, how many entries its history has, and the disk that it left.
pub fn run<
    T: Threads + Wait + Sync,
    S: Source,
    K: Sink,
    D: Disk + Send + Drop,
    P: Draws,
    W: Gate + Sync,
>(
    rt: &T,
    alloc: Global,
    words: &[String],
    source: &mut S,
    sink: &mut K,
    disk: D,
    peers: &mut P,
    gate: &W,
) -> (Ending, usize, D) {
    let Finished {
        ending,
        history,
        disk,
    } = console(
        rt,
        alloc,
        words,
        source,
        sink,
        disk,
        TestSigner::new(),
        &TestVerifier::new(),
        ChaChaDraws::new(seed_of(words), 0),
        peers,
        gate,
    );
    let entries = history.len();
    drop(history);
    (ending, entries, disk)
}
