//! What crosses threads, and code in several threads that knows what it shares by a trait alone.
ghost use Rattle.std.specs.Prelude.{◌≡◌, IfSome};
ghost use Rattle.std.specs.Thread.{IsSync};
ghost use Rattle.desk.specs.Turned.{IsTurn};

use crate::desks::{desk_of, taken};
use crate::published::{Told, Waiting};
use crate::sums::Sums;
use desk::{Closed, Desk, DeskLost, DeskMade, DeskOpen, Kept, LedgerFull, Pass};
use desk_sites::{Bench, Site, do_all};
use epoch_board::{BoardMade, BoardPass, EpochBoard, Publisher, Seen};
use group_terms::{List, NoMemory};
use std::alloc::Global;
use std::sync::Wait;
use std::thread;
use std::thread::Threads;

#[test]
fn what_workers_have_crosses_threads(rt: HostRuntime) {
    let rate = 1;
    let types = boards_cross() & desks_cross::<Sums>() & desks_cross::<Waiting>();
    let turned = two_turn_by_a_trait(&rt, rt.alloc(), &rate) == Ok(true);
    let done = each_job_is_done(&rt);
    assert!(rt; types & turned & done);
}

fn sends<T: Send>() -> bool {
    true
}

fn shares<T: Send + Sync>() -> bool {
    true
}

fn boards_cross() -> bool {
    let kept = shares::<EpochBoard>() & sends::<Publisher>() & sends::<BoardMade>();
    kept & sends::<BoardPass>() & shares::<Seen>() & sends::<Told>()
}

/// A desk at a value of this type, and all that its calls give.
fn desks_cross<K: Kept + Send>() -> bool {
    let desk = shares::<Desk<K>>() & sends::<DeskMade<K>>();
    let passes = sends::<Pass<K>>() & sends::<List<Pass<K>>>();
    let back = sends::<Closed<K>>() & sends::<DeskOpen<K>>() & sends::<DeskLost<K>>();
    desk & passes & back & sends::<LedgerFull>()
}

/// A turn at a site. What it promises is what a turn at the desk does.
fn turned<R: Threads + Wait + Sync, P, S: Site<Pass = P, Event = u64, Answer = u64>>(
    rt: &R,
    site: &S,
    pass: &mut P,
    event: u64,
) -> Option<u64>
    requires own { (S.held pass.old).desk ≡ (S.told site.now).id }
    requires suits { S.Suits event (S.told site.now).terms.tag }
    ensures own { (S.held pass.new).desk ≡ (S.held pass.old).desk }
    ensures turn { IfSome result
        (λ answer. IsTurn S.Relates (S.told site.now).terms.start event answer (S.held pass.old) (S.held pass.new)) }
{
    match site.turn_in(rt, pass, event) {
        Ok(answer) => Some(answer),
        Err(_) => None,
    }
}

/// Two turns at a site, each in a thread of its own.
fn both_turn<
    R: Threads + Wait + Sync,
    P: Send,
    S: Site<Pass = P, Event = u64, Answer = u64> + Sync,
>(rt: &R, site: &S, first: &mut P, second: &mut P) -> (Option<u64>, Option<u64>)
    requires first { (S.held first.old).desk ≡ (S.told site.now).id }
    requires second { (S.held second.old).desk ≡ (S.told site.now).id }
    requires five { S.Suits 5 (S.told site.now).terms.tag }
    requires seven { S.Suits 7 (S.told site.now).terms.tag }
{
    thread::join(
        rt,
        ||
            requires shared { IsSync R.row }
            requires own { (S.held first.now).desk ≡ (S.told site.now).id }
            requires suits { S.Suits 5 (S.told site.now).terms.tag }
        { turned(rt, site, first, 5) },
        ||
            requires shared { IsSync R.row }
            requires own { (S.held second.now).desk ≡ (S.told site.now).id }
            requires suits { S.Suits 7 (S.told site.now).terms.tag }
        { turned(rt, site, second, 7) },
    )
}

/// Turns of 5 and 7 in two threads: whichever comes second has the whole sum.
fn two_turn_by_a_trait<R: Threads + Wait + Sync>(
    rt: &R,
    alloc: Global,
    rate: &u64,
) -> Result<bool, NoMemory> {
    let DeskMade { desk, mut passes } = desk_of(alloc, rate, 2, 4)?;
    let mut second = taken(&desk, &mut passes)?;
    let mut first = taken(&desk, &mut passes)?;
    let answers = both_turn(rt, &desk, &mut first, &mut second);
    Ok((answers == (Some(5), Some(12))) | (answers == (Some(12), Some(7))))
}

/// Multiplies jobs by a rate that all threads share.
struct AtRate<'a> {
    rate: &'a u64,
}

impl Bench for AtRate<'_> {
    type Job = u64;

    ghost use Rattle.std.specs.Prelude.{◌≡◌, ◌*◌, ◌%◌, ◌^◌, ⊤};

    ghost Fits = { λ _ _. ⊤ };

    ghost Did = { λ bench old new. new ≡ (old * bench.rate.now) % 2 ^ 64 };

    fn do_one<R: Threads + Wait + Sync>(&self, _rt: &R, job: &mut u64) {
        *job = job.wrapping_mul(*self.rate);
    }
}

fn each_job_is_done<R: Threads + Wait + Sync>(rt: &R) -> bool {
    let mut jobs = [1, 2, 3, 5, 8];
    do_all(rt, &AtRate { rate: &7 }, &mut jobs, 3);
    jobs == [7, 14, 21, 35, 56]
}
