//! Threads that take turns at a desk, and the sum of all their turns.
ghost use Rattle.std.specs.Prelude.{◌≡◌, ◌<◌, All};
ghost use Rattle.std.specs.Thread.{IsSync};

use desk::{Closed, Desk, DeskMade, DeskOpen, Pass};
use desk_sums::Sum;
use group_terms::{List, NoMemory};
use std::alloc::Global;
use std::sync::Wait;
use std::thread;
use std::thread::Threads;

const PASSES: u32 = 64;

const TURNS: u64 = 4096;

/// Makes all turns of a pass.
fn work<R: Threads + Wait + Sync>(rt: &R, desk: &Desk<Sum>, pass: &mut Pass<Sum>)
    requires { pass.old.desk ≡ desk.now.id }
    ensures { pass.new.desk ≡ desk.now.id }
{
    for event in 0..TURNS {
        if desk.turn(rt, pass, event).is_err() {
            return;
        }
    }
}

fn work_all<R: Threads + Wait + Sync>(
    rt: &R,
    desk: &Desk<Sum>,
    passes: &mut [Pass<Sum>],
    threads: usize,
)
    requires threads { 0 < threads }
    requires own { All (λ pass. pass.desk ≡ desk.now.id) passes.old }
    ensures { All (λ pass. pass.desk ≡ desk.now.id) passes.new }
{
    let step = |_: usize, pass: &mut Pass<Sum>|
        requires { (pass.now.desk ≡ desk.now.id) × IsSync R.row }
        ensures { pass.exit.now.desk ≡ desk.entry.now.id }
    { work(rt, desk, pass) };
    thread::for_each_mut(rt, passes, threads, &step);
}

/// The sum of all turns of a new desk, which so many threads make.
pub fn sum_of_turns<R: Threads + Wait + Sync>(
    rt: &R,
    alloc: Global,
    threads: usize,
) -> Result<u64, NoMemory>
    requires { 0 < threads }
{
    let Ok(DeskMade { desk, passes }) = Desk::new(alloc, Sum::new(alloc), PASSES, TURNS) else {
        return Err(NoMemory);
    };
    let mut passes = passes.into_vec();
    work_all(rt, &desk, passes.as_mut_slice(), threads);
    let closed = desk.close(List::from_vec(passes));
    let sum = sum_of(&closed);
    drop(closed);
    sum
}

/// The sum that a desk was closed with.
fn sum_of(closed: &Result<Closed<Sum>, DeskOpen<Sum>>) -> Result<u64, NoMemory> {
    match closed {
        Ok(closed) => Ok(closed.kept.value()),
        Err(_) => Err(NoMemory),
    }
}
