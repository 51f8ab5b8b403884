//! A desk at one sum, in one thread.
ghost use Rattle.std.specs.Prelude.{◌≡◌, ◌≤◌, All, IfOk, OnOk};

use crate::sums::Sums;
use desk::{Closed, Desk, DeskMade, DeskOpen, Kept, LedgerFull, Pass};
use group_terms::{List, NoMemory};
use std::alloc::Global;
use std::sync::Wait;
use std::thread::Threads;

#[test]
fn passes_take_turns_and_come_back(rt: HostRuntime) {
    let rate = 1;
    let met = two_passes_meet(&rt, rt.alloc(), &rate) == Ok(true);
    let full = has_no_second_turn(&rt, rt.alloc(), &rate) == Ok(true);
    assert!(rt; met & full);
}

/// A desk at an empty sum.
pub(crate) fn desk_of(
    alloc: Global,
    rate: &u64,
    passes: u32,
    turns: u64,
) -> Result<DeskMade<Sums<'_>>, NoMemory>
    requires passes { (1 ≤ passes) × (passes ≤ 64) }
    requires turns { (1 ≤ turns) × (turns ≤ 4096) }
    ensures { IfOk result (λ made. All (λ pass. pass.desk ≡ made.desk.id) made.passes) }
{
    let made = Desk::new(alloc, Sums::new(alloc, rate), passes, turns);
    made.ok().ok_or(NoMemory)
}

/// Takes the last pass out.
pub(crate) fn taken<K: Kept>(
    desk: &Desk<K>,
    passes: &mut List<Pass<K>>,
) -> Result<Pass<K>, NoMemory>
    requires { All (λ pass. pass.desk ≡ desk.now.id) passes.old }
    ensures pass { IfOk result (λ pass. pass.desk ≡ desk.now.id) }
    ensures others { All (λ pass. pass.desk ≡ desk.now.id) passes.new }
{
    match passes.pop() {
        Some(pass) => Ok(pass),
        None => Err(NoMemory),
    }
}

/// Two passes take a turn each and meet. The desk stays open while one of them is away, and is closed when both are back.
fn two_passes_meet<R: Threads + Wait + Sync>(
    rt: &R,
    alloc: Global,
    rate: &u64,
) -> Result<bool, NoMemory> {
    let DeskMade { desk, mut passes } = desk_of(alloc, rate, 2, 4)?;
    let (turned, second) = both_turn(rt, &desk, &mut passes)?;
    match desk.close(passes).err() {
        Some(open) => Ok(turned & comes_back(open, second)),
        None => Ok(false),
    }
}

/// Takes two passes out, each of which takes a turn, and puts one of them back.
fn both_turn<'a, R: Threads + Wait + Sync>(
    rt: &R,
    desk: &Desk<Sums<'a>>,
    passes: &mut List<Pass<Sums<'a>>>,
) -> Result<(bool, Pass<Sums<'a>>), NoMemory>
    requires { All (λ pass. pass.desk ≡ desk.now.id) passes.old }
    ensures second { IfOk result (λ turned. turned.1.desk ≡ desk.now.id) }
    ensures others { OnOk result (All (λ pass. pass.desk ≡ desk.now.id) passes.new) }
{
    let mut second = taken(desk, passes)?;
    let mut first = taken(desk, passes)?;
    let turned = two_turns_seen(rt, desk, &mut first, &mut second) == Ok((5, 12));
    passes.push(first)?;
    Ok((turned, second))
}

/// Turns of 5 and 7 by two passes, which then meet.
fn two_turns_seen<'a, R: Threads + Wait + Sync>(
    rt: &R,
    desk: &Desk<Sums<'a>>,
    first: &mut Pass<Sums<'a>>,
    second: &mut Pass<Sums<'a>>,
) -> Result<(u64, u64), LedgerFull>
    requires first { first.old.desk ≡ desk.now.id }
    requires second { second.old.desk ≡ desk.now.id }
    ensures first { first.new.desk ≡ desk.now.id }
    ensures second { second.new.desk ≡ desk.now.id }
{
    let five = desk.turn(rt, first, 5)?;
    let seven = desk.turn(rt, second, 7)?;
    desk.meet(first, second);
    Ok((five, seven))
}

/// Whether one of two passes was there, and the desk is closed with the other one.
fn comes_back<'a>(open: DeskOpen<Sums<'a>>, away: Pass<Sums<'a>>) -> bool
    requires passes { All (λ pass. pass.desk ≡ open.desk.id) open.passes }
    requires away { away.desk ≡ open.desk.id }
{
    let DeskOpen {
        desk,
        mut passes,
        made,
    } = open;
    let one_was_away = (made == 2) & (passes.len() == 1);
    if passes.push(away).is_err() {
        return false;
    }
    match closed(desk, passes) {
        Some(sums) => {
            let both = sums.entries.items() == [5, 7].as_slice();
            one_was_away & both & (sums.last == 1)
        }
        None => false,
    }
}

/// The value of a desk whose passes are all there.
pub(crate) fn closed<K: Kept + Drop>(desk: Desk<K>, passes: List<Pass<K>>) -> Option<K>
    requires { All (λ pass. pass.desk ≡ desk.id) passes }
{
    match desk.close(passes) {
        Ok(Closed { kept, calls: _ }) => Some(kept),
        Err(_) => None,
    }
}

/// A pass of one turn has no second one, and the desk stays open without it.
fn has_no_second_turn<R: Threads + Wait + Sync>(
    rt: &R,
    alloc: Global,
    rate: &u64,
) -> Result<bool, NoMemory> {
    let DeskMade { desk, mut passes } = desk_of(alloc, rate, 1, 1)?;
    let mut pass = taken(&desk, &mut passes)?;
    let turned = turns_once(rt, &desk, &mut pass);
    let open = desk.close(passes).err();
    let stays_open = is_without_a_pass(&open);
    drop(open);
    Ok(turned & stays_open)
}

fn turns_once<'a, R: Threads + Wait + Sync>(
    rt: &R,
    desk: &Desk<Sums<'a>>,
    pass: &mut Pass<Sums<'a>>,
) -> bool
    requires { pass.old.desk ≡ desk.now.id }
{
    let first = desk.turn(rt, pass, 3) == Ok(3);
    first & (desk.turn(rt, pass, 4) == Err(LedgerFull { held: 1 }))
}

fn is_without_a_pass(left: &Option<DeskOpen<Sums>>) -> bool {
    match left {
        Some(open) => (open.made == 1) & open.passes.is_empty(),
        None => false,
    }
}
