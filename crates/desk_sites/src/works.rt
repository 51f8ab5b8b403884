//! Many turns with each of several passes, in several threads.
ghost use Rattle.std.specs.Prelude.{◌≡◌, ◌⊎◌, ℕ, ◌<◌, ◌≤◌, length, All};
ghost use Rattle.std.specs.Thread.{IsSync};

use crate::Site;
use std::sync::Wait;
use std::thread;
use std::thread::Threads;

/// Makes so many turns with a pass, by events that count up from `first`, or as many as it has left.
fn work<R: Threads + Wait + Sync, P, S: Site<Pass = P, Event = u64, Answer = u64>>(
    rt: &R,
    site: &S,
    pass: &mut P,
    first: u64,
    turns: u32,
)
    requires own { (S.held pass.old).desk ≡ (S.told site.now).id }
    requires suits { (event : ℕ) → S.Suits event (S.told site.now).terms.tag }
    ensures own { (S.held pass.new).desk ≡ (S.told site.now).id }
    ensures made { (turns ≤ length (S.held pass.new).mine) ⊎ (length (S.held pass.new).mine ≡ (S.told site.now).terms.turns) }
{
    for turn in 0..turns {
        let event = first.saturating_add(u64::from(turn));
        if site.turn_in(rt, pass, event).is_err() {
            return;
        }
    }
}

/// Makes so many turns with each pass, in so many threads, by events that count up from pass to pass.
pub fn work_all<
    R: Threads + Wait + Sync,
    P: Send,
    S: Site<Pass = P, Event = u64, Answer = u64> + Sync,
>(rt: &R, site: &S, passes: &mut [P], turns: u32, threads: usize)
    requires threads { 0 < threads }
    requires own { All (λ pass. (S.held pass).desk ≡ (S.told site.now).id) passes.old }
    requires suits { (event : ℕ) → S.Suits event (S.told site.now).terms.tag }
    ensures own { All (λ pass. (S.held pass).desk ≡ (S.told site.now).id) passes.new }
    ensures made { All (λ pass. (turns ≤ length (S.held pass).mine)
        ⊎ (length (S.held pass).mine ≡ (S.told site.now).terms.turns)) passes.new }
{
    let step = |at: usize, pass: &mut P|
        requires { ((S.held pass.now).desk ≡ (S.told site.now).id)
            × ((event : ℕ) → S.Suits event (S.told site.now).terms.tag) × IsSync R.row }
        ensures own { (S.held pass.exit.now).desk ≡ (S.told site.entry.now).id }
        ensures made { (turns ≤ length (S.held pass.exit.now).mine)
            ⊎ (length (S.held pass.exit.now).mine ≡ (S.told site.entry.now).terms.turns) }
    {
        work(
            rt,
            site,
            pass,
            (at as u64).saturating_mul(u64::from(turns)),
            turns,
        )
    };
    thread::for_each_mut(rt, passes, threads, &step);
}
