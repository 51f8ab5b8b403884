//! Workers at a desk: the rooms that they need, how they get their lines, and what they leave.
ghost use Rattle.std.specs.Prelude.{◌≡◌, ℕ, ◌+◌, ◌<◌, ◌≤◌, [], ◌∷◌, ◌++◌, length, map, reverse, slice_index_or, vec_capacity, All, IfOk, IsTrue};
ghost use Rattle.std.specs.List.{list_any};
ghost use Rattle.desk.specs.Turned.{IsWhole};
ghost use Rattle.epoch_board.specs.Pairs.{StartsWith};
ghost use Rattle.work_shares.specs.Shares.{rounds, share};
ghost use Rattle.register_workers.specs.Private.Running.{IsFresh};
ghost use Rattle.register_workers.specs.Private.Seating.{AreHands, HasWork, IsNewPass, IsRoomFor};
ghost use Rattle.group_steps.specs.Shows.{pairs_shown};

use crate::desk_books::{Began, DeskBook};
use crate::workers::{Floor, Worker};
use crate::{BlockLine, Book};
use desk::{Closed, Desk, Kept, Pass};
use epoch_board::{BoardPass, EpochBoard};
use gd_disk::Disk;
use gd_edges::{Draws, Signer};
use group_model::{List, NoMemory};
use std::alloc::Global;
use work_shares::hands;

/// All memory that a block takes, before it begins.
#[derive(Drop)]
pub(crate) struct Rooms<'a, D: Disk, G: Signer, R: Draws, M: Began<D, G, R>> {
    pub(crate) due: Vec<Vec<BlockLine>>,
    pub(crate) done: Vec<Vec<BlockLine>>,
    pub(crate) workers: Vec<Worker<'a, D, G, R, M>>,
    pub(crate) left: Leavings<'a, D, G, R, M>,
    pub(crate) lines: Vec<BlockLine>,
}

/// What workers leave, the first one first.
#[derive(Drop)]
pub(crate) struct Leavings<'a, D: Disk, G: Signer, R: Draws, M: Began<D, G, R>> {
    pub(crate) passes: Vec<Pass<DeskBook<'a, D, G, R, M>>>,
    pub(crate) readers: Vec<BoardPass>,
    pub(crate) ran: Vec<Vec<BlockLine>>,
}

impl<'a, D: Disk, G: Signer, R: Draws, M: Began<D, G, R>> Rooms<'a, D, G, R, M> {
    /// Rooms for so many workers, who run so many lines. `NoMemory`.
    pub(crate) fn new(alloc: Global, workers: usize, lines: usize) -> Result<Self, NoMemory>
        requires { 0 < workers }
        ensures due { IfOk result (λ rooms. AreHands rooms.due.items (λ hand. hand.items) (λ hand. vec_capacity hand) workers lines) }
        ensures done { IfOk result (λ rooms. AreHands rooms.done.items (λ hand. hand.items) (λ hand. vec_capacity hand) workers lines) }
        ensures workers { IfOk result (λ rooms. IsRoomFor workers rooms.workers.items (vec_capacity rooms.workers)) }
        ensures passes { IfOk result (λ rooms. IsRoomFor workers rooms.left.passes.items (vec_capacity rooms.left.passes)) }
        ensures readers { IfOk result (λ rooms. IsRoomFor workers rooms.left.readers.items (vec_capacity rooms.left.readers)) }
        ensures ran { IfOk result (λ rooms. IsRoomFor workers rooms.left.ran.items (vec_capacity rooms.left.ran)) }
        ensures lines { IfOk result (λ rooms. IsRoomFor lines rooms.lines.items (vec_capacity rooms.lines)) }
    {
        Ok(Rooms {
            due: hands(alloc, workers, lines)?,
            done: hands(alloc, workers, lines)?,
            workers: Vec::with_capacity(alloc, workers)?,
            left: Leavings::new(alloc, workers)?,
            lines: Vec::with_capacity(alloc, lines)?,
        })
    }
}

impl<'a, D: Disk, G: Signer, R: Draws, M: Began<D, G, R>> Leavings<'a, D, G, R, M> {
    /// Room for what so many workers leave. `NoMemory`.
    fn new(alloc: Global, workers: usize) -> Result<Self, NoMemory>
        ensures passes { IfOk result (λ left. IsRoomFor workers left.passes.items (vec_capacity left.passes)) }
        ensures readers { IfOk result (λ left. IsRoomFor workers left.readers.items (vec_capacity left.readers)) }
        ensures ran { IfOk result (λ left. IsRoomFor workers left.ran.items (vec_capacity left.ran)) }
    {
        Ok(Leavings {
            passes: Vec::with_capacity(alloc, workers)?,
            readers: Vec::with_capacity(alloc, workers)?,
            ran: Vec::with_capacity(alloc, workers)?,
        })
    }
}

/// Gives each pass the lines that it has to run, and room for those that it ran.
pub(crate) fn seat_workers<'a, D: Disk, G: Signer, R: Draws, M: Began<D, G, R>, W>(
    floor: &Floor<'_, 'a, D, G, R, M, W>,
    reader: &mut BoardPass,
    mut passes: List<Pass<DeskBook<'a, D, G, R, M>>>,
    mut due: Vec<Vec<BlockLine>>,
    mut done: Vec<Vec<BlockLine>>,
    room: Vec<Worker<'a, D, G, R, M>>,
) -> Vec<Worker<'a, D, G, R, M>>
    requires reader { reader.old.board ≡ floor.now.board.now }
    requires passes { All (IsNewPass floor.now.desk.now.id) passes }
    requires many { (length due.items ≡ length passes) × (length done.items ≡ length passes) }
    requires due { All (λ hand. HasWork floor.now.desk.now.terms.turns hand.items) due.items }
    requires done { All (λ hand. (hand.items ≡ []) × (floor.now.desk.now.terms.turns ≤ vec_capacity hand + vec_capacity hand)) done.items }
    requires room { IsRoomFor (length passes) room.items (vec_capacity room) }
    ensures due { map (λ worker. worker.due) result.items ≡ map (λ hand. hand.items) due.items }
    ensures fresh { All (IsFresh floor.now.desk.now) result.items }
    ensures knew { All (λ worker. worker.reader.seen ≡ reader.old.seen) result.items }
    ensures reader { reader.new ≡ reader.old }
{
    let mut workers = room;
    while let Some(pass) = passes.pop() {
        let number = due.len() as u64;
        let lines = last_hand(&mut due);
        let ran = last_hand(&mut done);
        let worker = Worker {
            pass,
            reader: floor.board.split(reader),
            due: lines,
            done: ran,
            number,
            memory: false,
        };
        workers.push_reserved(worker);
    }
    workers.reverse();
    workers
}

/// Takes the last hand off.
fn last_hand(hands: &mut Vec<Vec<BlockLine>>) -> Vec<BlockLine>
    requires { 0 < length hands.old.items }
    ensures { hands.old.items ≡ hands.new.items ++ result ∷ [] }
{
    hands.pop().unwrap()
}

/// Takes apart what workers leave. Answers whether want of memory ended a line of one of them.
pub(crate) fn rise<'a, D: Disk, G: Signer, R: Draws, M: Began<D, G, R>>(
    mut workers: Vec<Worker<'a, D, G, R, M>>,
    left: &mut Leavings<'a, D, G, R, M>,
) -> bool
    requires passes { IsRoomFor (length workers.items) left.old.passes.items (vec_capacity left.old.passes) }
    requires readers { IsRoomFor (length workers.items) left.old.readers.items (vec_capacity left.old.readers) }
    requires ran { IsRoomFor (length workers.items) left.old.ran.items (vec_capacity left.old.ran) }
    ensures passes { left.new.passes.items ≡ map (λ worker. worker.pass) workers.entry.items }
    ensures readers { left.new.readers.items ≡ map (λ worker. worker.reader) workers.entry.items }
    ensures ran { map (λ hand. hand.items) left.new.ran.items ≡ map (λ worker. worker.done) workers.entry.items }
    ensures memory { result ≡ list_any (λ worker. worker.memory) workers.entry.items }
{
    let mut short = false;
    workers.reverse();
    while let Some(worker) = workers.pop() {
        let Worker {
            pass,
            reader,
            due: _,
            done,
            number: _,
            memory,
        } = worker;
        short |= memory;
        left.passes.push_reserved(pass);
        left.readers.push_reserved(reader);
        left.ran.push_reserved(done);
    }
    short
}

/// Closes a desk to which all passes came back.
pub(crate) fn closed<K: Kept + Drop>(desk: Desk<K>, passes: List<Pass<K>>) -> Closed<K>
    requires own { All (λ pass. pass.desk ≡ desk.id) passes }
    requires all { desk.terms.passes ≤ length passes }
    ensures whole { IsWhole desk.terms passes (K.listed result.kept) }
    ensures tag { K.tag result.kept ≡ desk.terms.tag }
    ensures calls { result.calls ≡ map (λ pass. pass.mine) passes }
{
    match desk.close(passes) {
        Ok(closed) => closed,
        Err(_) => unreachable!(),
    }
}

/// Shows passes of its board all that a book published: each of them had seen a first part of that.
pub(crate) fn show_all<D: Disk, G: Signer, R: Draws>(
    book: &mut Book<D, G, R>,
    board: &EpochBoard,
    mut readers: Vec<BoardPass>,
)
    requires book { book.old.board ≡ board.now }
    requires readers { All (λ reader. reader.board ≡ board.now) readers.items }
    ensures same { book.new ≡ book.old }
    ensures seen { All (λ reader. StartsWith (pairs_shown book.old.entries) reader.seen) readers.items }
{
    while let Some(mut reader) = readers.pop() {
        book.show(board, &mut reader);
    }
}
