//! Has threads share a board, or a desk, many times over, so that the time of it can be taken from outside. Each line is answered by one.
//!
//! ```text
//! looks THREADS COUNT      each of so many threads looks so often at a board while another one publishes under a lock that it keeps
//! turns THREADS            so many threads together make the turns of a desk
//! ```
//!
//! The answer to `looks` is `rises`, or `falls` where a pair fell, or where not all see the last pair when they are done. That to `turns` is the sum of all
//! turns: those of a new desk of 64 passes, 262,144 in all, which is closed after them.
ghost use Rattle.std.specs.Prelude.{◌<◌};

use boards::look_together;
use case_lines::{Text, number};
use group_terms::NoMemory;
use rounds::sum_of_turns;
use std::alloc::Global;
use std::sync::Wait;
use std::thread::Threads;

mod boards;
mod parts;
mod rounds;

/// Has so many threads look so often.
pub fn looks<R: Threads + Wait + Sync>(
    rt: &R,
    alloc: Global,
    words: &[&str],
    text: &mut Text,
) -> Option<()> {
    let [threads, looks] = words else {
        return None;
    };
    let (threads, looks) = (number(threads)?, number(looks)?);
    match look_together(rt, alloc, threads, looks) {
        Ok(true) => text.add("rises"),
        Ok(false) => text.add("falls"),
        Err(NoMemory) => text.lose(),
    }
    Some(())
}

/// Has so many threads make the turns of a desk.
pub fn turns<R: Threads + Wait + Sync>(
    rt: &R,
    alloc: Global,
    words: &[&str],
    text: &mut Text,
) -> Option<()> {
    let [threads] = words else {
        return None;
    };
    let threads = number(threads)?.max(1) as usize;
    match sum_of_turns(rt, alloc, threads) {
        Ok(sum) => text.add_number(sum),
        Err(NoMemory) => text.lose(),
    }
    Some(())
}
