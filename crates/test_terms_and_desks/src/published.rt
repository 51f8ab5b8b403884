//! A look at a board waits for no turn at the desk whose value publishes on it.
ghost use Rattle.std.specs.Prelude.{◌≡◌, [], All, IfOk};
ghost use Rattle.desk.specs.Turned.{new_passes};

use crate::desks::taken;
use desk::{Desk, DeskMade, Kept, Pass};
use epoch_board::{BoardMade, BoardPass, EpochBoard, Publisher, Seen};
use group_terms::{List, Log, NoMemory};
use std::alloc::Global;
use std::sync::Wait;
use std::sync::atomic::AtomicBool;
use std::sync::atomic::Ordering::SeqCst;
use std::thread;
use std::thread::Threads;

/// A board, and a flag for which the one who publishes waits.
#[derive(Drop)]
struct Hall {
    board: EpochBoard,
    flag: AtomicBool,
}

impl Hall {
    fn of(board: EpochBoard) -> Self
        ensures { result.board ≡ board }
    {
        Hall {
            board,
            flag: AtomicBool::new(false),
        }
    }
}

/// A pass with the hall that its board is in.
#[derive(Drop)]
struct Watch<'a> {
    hall: &'a Hall,
    pass: BoardPass,
    ghost one_board: { pass.board ≡ hall.now.board },
}

impl Watch<'_> {
    fn now(&mut self) -> Seen {
        self.hall.board.now(&mut self.pass)
    }
}

fn wait_for<R: Wait>(rt: &R, flag: &AtomicBool) {
    for _ in rt.forever() {
        if flag.load(SeqCst) {
            break;
        }
        thread::yield_now();
    }
}

/// Looks until something was published, and then sets the flag.
fn look_and_tell<R: Wait>(rt: &R, watch: &mut Watch) -> Seen {
    let mut seen = watch.now();
    for _ in rt.forever() {
        if seen.epoch != 0 {
            break;
        }
        thread::yield_now();
        seen = watch.now();
    }
    watch.hall.flag.store(true, SeqCst);
    seen
}

/// Which board a value publishes on. No value of it is made.
pub struct OnBoard {
    pub board: EpochBoard,
}

/// Publishes each epoch that it is given, and waits in its turn for the flag.
#[derive(Drop)]
pub(crate) struct Waiting<'a> {
    epochs: Log<u32>,
    hall: &'a Hall,
    publisher: Publisher,
    ghost one_board: { publisher.board ≡ hall.now.board },
}

/// An epoch, and a pass that is shown what was published.
#[derive(Drop)]
pub(crate) struct Told {
    epoch: u32,
    pass: BoardPass,
}

impl Kept for Waiting<'_> {
    type Event = Told;

    type Entry = u32;

    type Answer = BoardPass;

    type Tag = OnBoard;

    ghost use Rattle.std.specs.Prelude.{◌≡◌};

    ghost listed = { λ waiting. waiting.epochs.items };

    ghost spare = { λ waiting. waiting.epochs.spare };

    ghost tag = { λ waiting. record { board = waiting.hall.now.board } };

    ghost begun = { λ _. 0 };

    ghost Same = { λ waiting other.
        (other.epochs.items ≡ waiting.epochs.items) × (other.hall ≡ waiting.hall) × (other.publisher ≡ waiting.publisher) };

    ghost Suits = { λ event tag. event.pass.board ≡ tag.board };

    ghost Relates = { λ _ event entry answer. (entry ≡ event.epoch) × (answer.board ≡ event.pass.board) };

    fn take<R: Threads + Wait + Sync>(&mut self, rt: &R, _number: u64, event: Told) -> BoardPass {
        let Told { epoch, mut pass } = event;
        let board = &self.hall.board;
        board.publish(&mut self.publisher, epoch, 0);
        wait_for(rt, &self.hall.flag);
        board.meet(&mut self.publisher, &mut pass);
        self.epochs.add(epoch);
        pass
    }

    fn reserve(&mut self, turns: u64) -> Result<(), NoMemory> {
        self.epochs.reserve(turns)
    }
}

/// Takes one turn for the first epoch.
fn turn_once<'a, R: Threads + Wait + Sync>(
    rt: &R,
    desk: &Desk<Waiting<'a>>,
    pass: &mut Pass<Waiting<'a>>,
    told: Told,
) -> bool
    requires desk { pass.old.desk ≡ desk.now.id }
    requires board { told.pass.board ≡ desk.now.terms.tag.board }
{
    desk.turn(rt, pass, told).is_ok()
}

/// A desk of one pass at a value that publishes on the board of this hall.
fn desk_of(
    alloc: Global,
    hall: &Hall,
    publisher: Publisher,
) -> Result<DeskMade<Waiting<'_>>, NoMemory>
    requires { publisher.board ≡ hall.now.board }
    ensures desk { IfOk result (λ made. (made.desk.terms.tag.board ≡ hall.now.board) × (made.desk.terms.passes ≡ 1)) }
    ensures passes { IfOk result (λ made. made.passes ≡ new_passes made.desk.id made.desk.terms) }
    ensures own { IfOk result (λ made. All (λ pass. pass.desk ≡ made.desk.id) made.passes) }
{
    let waiting = Waiting {
        epochs: Log::of(List::new(alloc)),
        hall,
        publisher,
    };
    Desk::new(alloc, waiting, 1, 1).ok().ok_or(NoMemory)
}

#[test]
fn a_look_waits_for_no_turn(rt: HostRuntime) {
    assert!(rt; waits_for_none(&rt, rt.alloc()) == Ok(true));
}

fn waits_for_none<R: Threads + Wait + Sync>(rt: &R, alloc: Global) -> Result<bool, NoMemory> {
    let BoardMade {
        board,
        publisher,
        mut reader,
    } = EpochBoard::new(alloc)?;
    let told = Told {
        epoch: 1,
        pass: board.split(&mut reader),
    };
    let hall = Hall::of(board);
    let mut watch = Watch {
        hall: &hall,
        pass: reader,
    };
    let made = desk_of(alloc, &hall, publisher)?;
    is_seen_in_a_turn(rt, made, told, &mut watch)
}

/// Whether the first epoch is seen while it is told in a turn.
fn is_seen_in_a_turn<'a, R: Threads + Wait + Sync>(
    rt: &R,
    made: DeskMade<Waiting<'a>>,
    told: Told,
    watch: &mut Watch,
) -> Result<bool, NoMemory>
    requires board { told.pass.board ≡ made.desk.terms.tag.board }
    requires own { All (λ pass. pass.desk ≡ made.desk.id) made.passes }
{
    let DeskMade { desk, mut passes } = made;
    let mut pass = taken(&desk, &mut passes)?;
    let (turned, seen) = thread::join(
        rt,
        ||
            requires desk { pass.desk ≡ desk.id }
            requires board { told.pass.board ≡ desk.terms.tag.board }
        { turn_once(rt, &desk, &mut pass, told) },
        || look_and_tell(rt, watch),
    );
    Ok(turned & (seen.epoch == 1) & (seen.sequence == 0))
}
