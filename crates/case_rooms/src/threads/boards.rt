//! Threads that look at a board while another one publishes.

use crate::threads::parts::{Ledger, Watch};
use epoch_board::{BoardMade, EpochBoard};
use group_terms::NoMemory;
use std::alloc::Global;
use std::sync::atomic::AtomicUsize;
use std::sync::atomic::Ordering::SeqCst;
use std::sync::{Mutex, Wait};
use std::thread;
use std::thread::Threads;

/// So many threads look so often while another publishes, which keeps a lock all the while. Says whether each saw whole pairs that never fell, and sees the
/// last one when they are done.
pub fn look_together<R: Threads + Wait + Sync>(
    rt: &R,
    alloc: Global,
    threads: u32,
    looks: u32,
) -> Result<bool, NoMemory> {
    let BoardMade {
        board,
        publisher,
        reader,
    } = EpochBoard::new(alloc)?;
    let ledger = Mutex::new(Ledger {
        board: &board,
        publisher,
    });
    let mut first = Watch {
        board: &board,
        pass: reader,
        rises: true,
    };
    let looked = look_with(rt, alloc, &ledger, &mut first, threads, looks);
    drop(first);
    drop(ledger);
    drop(board);
    looked
}

/// The same at a board with its publisher and the first who looks at it.
fn look_with<R: Threads + Wait + Sync>(
    rt: &R,
    alloc: Global,
    ledger: &Mutex<Ledger>,
    first: &mut Watch,
    threads: u32,
    looks: u32,
) -> Result<bool, NoMemory> {
    let mut watches = Vec::new(alloc);
    let looked = match add_watches(first, threads, &mut watches) {
        Ok(()) => Ok(look_on(rt, ledger, watches.as_mut_slice(), looks)),
        Err(NoMemory) => Err(NoMemory),
    };
    drop(watches);
    looked
}

/// Adds so many others over the board of the first one.
fn add_watches<'a>(
    first: &mut Watch<'a>,
    threads: u32,
    watches: &mut Vec<Watch<'a>>,
) -> Result<(), NoMemory> {
    for _ in 0..threads {
        watches.push(first.another())?;
    }
    Ok(())
}

/// Each looks so often while another one publishes.
fn look_on<R: Threads + Wait + Sync>(
    rt: &R,
    ledger: &Mutex<Ledger>,
    watches: &mut [Watch],
    looks: u32,
) -> bool {
    let (done, threads) = (AtomicUsize::new(0), watches.len());
    let ((), last) = thread::join(
        rt,
        || look_all(rt, watches, looks, &done),
        || publish_until(rt, ledger, &done, threads),
    );
    let mut rise = true;
    for watch in watches.iter_mut() {
        rise &= watch.rises_to(last);
    }
    rise
}

/// Each looks so often, in a thread of its own, and is then counted.
fn look_all<R: Threads + Sync>(rt: &R, watches: &mut [Watch], looks: u32, done: &AtomicUsize) {
    let threads = watches.len().max(1);
    thread::for_each_mut(
        rt,
        watches,
        threads,
        &|_, watch| {
            watch.look(looks);
            done.fetch_add(1, SeqCst);
        },
    );
}

/// Publishes ever greater pairs until so many threads are done, and gives the number of the last one. The lock is kept until then.
fn publish_until<R: Wait>(
    rt: &R,
    ledger: &Mutex<Ledger>,
    done: &AtomicUsize,
    threads: usize,
) -> u32 {
    let mut turn = ledger.lock(rt);
    let mut number = 0u32;
    for _ in rt.forever() {
        if done.load(SeqCst) >= threads {
            break;
        }
        number = number.saturating_add(1);
        turn.publish(number);
    }
    number
}
