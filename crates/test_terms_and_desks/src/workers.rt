//! What comes of many turns, in several threads.
ghost use Rattle.std.specs.Prelude.{◌≡◌, ◌<◌, ◌≤◌, length};

use crate::desks::closed;
use crate::sums::Sums;
use desk::{Desk, DeskMade};
use desk_sites::work_all;
use group_terms::{List, NoMemory};
use std::alloc::Global;
use std::sync::Wait;
use std::thread::Threads;

/// How many turns are made with each pass, and in how many threads, by events that count up from 0; and their sum at a rate.
#[derive(Clone, Copy)]
struct Case {
    passes: u32,
    turns: u32,
    threads: usize,
    rate: u64,
    entries: usize,
    sum: u64,
}

const TWO_THREADS: Case = Case {
    passes: 2,
    turns: 50,
    threads: 2,
    rate: 1,
    entries: 100,
    sum: 4950,
};

const AT_A_RATE: Case = Case {
    passes: 2,
    turns: 50,
    threads: 2,
    rate: 3,
    entries: 100,
    sum: 3 * 4950,
};

/// As many passes and turns as a desk may have, in one thread.
const MOST_TURNS: Case = Case {
    passes: 64,
    turns: 4096,
    threads: 1,
    rate: 1,
    entries: 262_144,
    sum: 34_359_607_296,
};

/// As many in sixteen.
const SIXTEEN_THREADS: Case = Case {
    passes: 64,
    turns: 4096,
    threads: 16,
    rate: 1,
    entries: 262_144,
    sum: 34_359_607_296,
};

#[test]
fn threads_make_all_turns(rt: HostRuntime) {
    let two = makes_all(&rt, rt.alloc(), &TWO_THREADS) == Ok(true);
    let at_a_rate = makes_all(&rt, rt.alloc(), &AT_A_RATE) == Ok(true);
    let most = makes_all(&rt, rt.alloc(), &MOST_TURNS) == Ok(true);
    let sixteen = makes_all(&rt, rt.alloc(), &SIXTEEN_THREADS) == Ok(true);
    let again = found_after_two_desks(&rt, rt.alloc(), &TWO_THREADS) == Ok((200, 199, 9900));
    assert!(rt; two & at_a_rate & most & sixteen & again);
}

/// Whether each number of the case comes once, and the sum is that of the case.
fn makes_all<R: Threads + Wait + Sync>(rt: &R, alloc: Global, case: &Case) -> Result<bool, NoMemory>
    requires passes { (1 ≤ case.now.passes) × (case.now.passes ≤ 64) }
    requires turns { (1 ≤ case.now.turns) × (case.now.turns ≤ 4096) }
    requires threads { 0 < case.now.threads }
{
    let sums = turned(rt, alloc, Sums::new(alloc, &case.rate), case)?;
    let are_due = are_due(alloc, &sums, case);
    drop(sums);
    are_due
}

/// Whether the sums are those of a case.
fn are_due(alloc: Global, sums: &Sums, case: &Case) -> Result<bool, NoMemory> {
    let mut found = vec![in alloc; false; case.entries]?;
    let once = each_once(&mut found, sums.entries.items());
    drop(found);
    let at_the_end = sums.last.saturating_add(1) == case.entries as u64;
    Ok(once & at_the_end & (sums.sum == case.sum))
}

/// How many entries there are, the place of the last one, and the sum, after all turns of a desk, and then all turns of a second one at the same value.
fn found_after_two_desks<R: Threads + Wait + Sync>(
    rt: &R,
    alloc: Global,
    case: &Case,
) -> Result<(usize, u64, u64), NoMemory>
    requires passes { (1 ≤ case.now.passes) × (case.now.passes ≤ 64) }
    requires turns { (1 ≤ case.now.turns) × (case.now.turns ≤ 4096) }
    requires threads { 0 < case.now.threads }
{
    let first = turned(rt, alloc, Sums::new(alloc, &case.rate), case)?;
    let second = turned(rt, alloc, first.begun_anew(), case)?;
    let found = (second.entries.items().len(), second.last, second.sum);
    drop(second);
    Ok(found)
}

/// Makes all turns of a desk at a value, and answers the value.
fn turned<'a, R: Threads + Wait + Sync>(
    rt: &R,
    alloc: Global,
    sums: Sums<'a>,
    case: &Case,
) -> Result<Sums<'a>, NoMemory>
    requires begun { length sums.entries.items ≡ sums.begun }
    requires passes { (1 ≤ case.now.passes) × (case.now.passes ≤ 64) }
    requires turns { (1 ≤ case.now.turns) × (case.now.turns ≤ 4096) }
    requires threads { 0 < case.now.threads }
{
    let made = Desk::new(alloc, sums, case.passes, u64::from(case.turns));
    let DeskMade { desk, passes } = made.ok().ok_or(NoMemory)?;
    let mut passes = passes.into_vec();
    work_all(rt, &desk, passes.as_mut_slice(), case.turns, case.threads);
    closed(desk, List::from_vec(passes)).ok_or(NoMemory)
}

/// Whether the entries are the numbers of these places, each once.
fn each_once(found: &mut [bool], entries: &[u64]) -> bool {
    for entry in entries {
        match found.get_mut(*entry as usize) {
            Some(once) if !*once => *once = true,
            _ => return false,
        }
    }
    entries.len() == found.len()
}
