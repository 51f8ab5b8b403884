//! The steps of a turn at the table.
ghost use Rattle.std.specs.Prelude.{◌≡◌, ℕ, ◌+◌, ◌-◌, ◌%◌, ◌^◌, ◌<◌, ◌≤◌, List, [], ◌∷◌, ◌++◌, length, Some};
ghost use Rattle.desk.specs.declared.views.Phase.TheVariants.{Idle, Waits, Serves};
ghost use Rattle.desk.specs.Opened.{terms_of};
ghost use Rattle.desk.specs.Plays.{in_phase, TakesOut};
ghost use Rattle.desk.specs.Seats.{IsSized, IsSeatOf, IsAtRest, IsPlayer, IsSeat, HasTaken, MayPutBack, HasPutBack, HasTurned};

use crate::Kept;
use crate::bells::{Bells, Patience};
use crate::plays::{Count, Draw, Look, PassOn, Read};
use crate::rules::{COUNT, Place, SERVED, TICKET, Top};
use std::sync::Wait;
use std::sync::atomic::Ordering::SeqCst;
use std::thread::Threads;

fn draw<K: Kept>(top: &Top<K>, seat: &mut Place<K>) -> u64
    requires table { IsSized top.now.table_id (terms_of K.listed K.tag top.now.key) }
    requires seat { IsSeatOf top.now.table_id (terms_of K.listed K.tag top.now.key) seat.old }
    requires rest { IsAtRest seat.old }
    requires player { (made : ℕ) × IsPlayer made seat.old }
    ensures { (ticket : ℕ) × (result ≡ ticket % 2 ^ 64) × IsSeat seat.old seat.new (in_phase (Waits ticket) seat.old.me.0, []) }
{
    top.fetch_add::<Draw>(seat, TICKET, 1)
}

/// Sleeps until the bell of the ticket is rung, unless it is served.
fn sleep<K: Kept, R: Wait>(rt: &R, top: &Top<K>, bells: &Bells, ticket: u64)
    requires { IsSized top.now.table_id (terms_of K.listed K.tag top.now.key) }
{
    bells.sleepers.fetch_add(1, SeqCst);
    let key = bells.of(ticket).prepare_wait();
    if top.peek(SERVED) == ticket {
        drop(key);
    } else {
        key.wait(rt);
    }
    bells.sleepers.fetch_sub(1, SeqCst);
}

/// Waits until the ticket is served: at first ready to run, longer where few turns come before its own, then asleep. The seat then has the slot in hand.
fn wait_for<K: Kept, R: Wait>(rt: &R, top: &Top<K>, bells: &Bells, seat: &mut Place<K>, ticket: u64)
    requires table { IsSized top.now.table_id (terms_of K.listed K.tag top.now.key) }
    requires seat { IsSeatOf top.now.table_id (terms_of K.listed K.tag top.now.key) seat.old }
    requires waits { (own : ℕ) × (ticket ≡ own % 2 ^ 64) × (seat.old.me.0.phase ≡ Waits own) × (seat.old.me.1 ≡ []) }
    requires player { (made : ℕ) × (made < top.now.key.turns) × IsPlayer made seat.old }
    ensures { (own : ℕ) × TakesOut K.listed K.spare K.tag own seat.old.me seat.new.me
        × (seat.new.table_id ≡ seat.old.table_id) × (seat.new.id ≡ seat.old.id) }
{
    let patience = Patience::new();
    for _ in rt.forever() {
        let served = top.load::<Look>(seat, SERVED);
        if served == ticket {
            return;
        }
        if !patience.lasts(ticket.wrapping_sub(served)) {
            sleep(rt, top, bells, ticket);
        }
    }
    unreachable!()
}

/// Waits for its turn, and takes the value out. Answers the value, and the place of its next entry.
fn take_out<K: Kept, R: Wait>(rt: &R, top: &Top<K>, bells: &Bells, seat: &mut Place<K>) -> (K, u64)
    requires table { IsSized top.now.table_id (terms_of K.listed K.tag top.now.key) }
    requires seat { IsSeatOf top.now.table_id (terms_of K.listed K.tag top.now.key) seat.old }
    requires rest { IsAtRest seat.old }
    requires player { (made : ℕ) × (made < top.now.key.turns) × IsPlayer made seat.old }
    ensures { HasTaken K.listed K.spare K.tag (terms_of K.listed K.tag top.now.key) seat.old seat.new result.0 result.1 }
{
    let ticket = draw(top, seat);
    wait_for(rt, top, bells, seat, ticket);
    let kept = top.exchange(seat, 0, None).unwrap();
    let place = top.load::<Read>(seat, COUNT);
    (kept, place)
}

/// Puts the value back with its new entry, counts that, and passes the ticket on to whoever is next. Answers the place of the entry.
fn put_back<K: Kept>(top: &Top<K>, bells: &Bells, seat: &mut Place<K>, kept: K) -> u64
    requires table { IsSized top.now.table_id (terms_of K.listed K.tag top.now.key) }
    requires seat { IsSeatOf top.now.table_id (terms_of K.listed K.tag top.now.key) seat.old }
    requires out { MayPutBack K.listed K.spare K.tag (terms_of K.listed K.tag top.now.key) seat.old kept }
    requires player { (made : ℕ) × (made < top.now.key.turns) × IsPlayer made seat.old }
    ensures { HasPutBack K.listed K.spare K.tag (terms_of K.listed K.tag top.now.key) seat.old seat.new kept result }
{
    let hole = top.exchange(seat, 0, Some(kept));
    let None = hole else { unreachable!() };
    let place = top.fetch_add::<Count>(seat, COUNT, 1);
    let served = top.fetch_add::<PassOn>(seat, SERVED, 1);
    bells.ring(served.wrapping_add(1));
    place
}

/// One turn.
pub(crate) fn serve<K: Kept, R: Threads + Wait + Sync>(
    rt: &R,
    top: &Top<K>,
    bells: &Bells,
    seat: &mut Place<K>,
    event: K::Event,
) -> K::Answer
    requires table { IsSized top.now.table_id (terms_of K.listed K.tag top.now.key) }
    requires seat { IsSeatOf top.now.table_id (terms_of K.listed K.tag top.now.key) seat.old }
    requires rest { IsAtRest seat.old }
    requires player { (made : ℕ) × (made < top.now.key.turns) × IsPlayer made seat.old }
    requires begun { length (K.listed top.now.key.kept.value) ≡ K.begun (K.tag top.now.key.kept.value) }
    requires suits { K.Suits event (K.tag top.now.key.kept.value) }
    ensures { HasTurned K.Relates (terms_of K.listed K.tag top.now.key) seat.old seat.new event result }
{
    let (mut kept, number) = take_out(rt, top, bells, seat);
    let answer = kept.take(rt, number, event);
    let place = put_back(top, bells, seat, kept);
    prove!(number == place);
    answer
}
