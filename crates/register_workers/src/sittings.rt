//! What workers do at a desk that was made for them, from the first line to the last.
ghost use Rattle.std.specs.Prelude.{◌≡◌, ℕ, ◌+◌, ◌*◌, ◌<◌, ◌≤◌, List as Items, [], length, map, reverse, slice_index_or, vec_capacity, All, Some};
ghost use Rattle.desk.specs.declared.calls.Call.{Call};
ghost use Rattle.group_model.specs.declared.entries.Entry.{Entry as TheEntry};
ghost use Rattle.work_shares.specs.Shares.{AreShares, rounds, share};
ghost use Rattle.register_workers.specs.Lines.{IsReady};
ghost use Rattle.register_workers.specs.Private.Running.{HasRun, IsFresh, Worker as WorkerView};
ghost use Rattle.register_workers.specs.Private.Seating.{AreHands, HaveRun, IsEnded, IsNewPass, IsRoomFor};
ghost use Rattle.register_workers.specs.Private.Seats.{IsSinceIf};
ghost use Rattle.group_steps.specs.Shows.{pairs_shown};
ghost use Rattle.register_workers.specs.declared.lines.BlockLine.{BlockLine as Line};

use crate::desk_books::{Began, DeskBook};
use crate::seats::{Leavings, Rooms, closed, rise, seat_workers, show_all};
use crate::workers::{Floor, Worker};
use crate::{BlockLine, Blocked};
use desk::{Closed, Desk, DeskMade, Pass};
use desk_sites::do_all;
use epoch_board::{BoardPass, EpochBoard};
use gd_disk::Disk;
use gd_edges::{Draws, Signer};
use group_model::List;
use std::alloc::Global;
use std::sync::Wait;
use std::thread::Threads;
use work_shares::{Gate, deal, gather, no_share_has_more_than_the_rounds};

/// Runs lines at a desk that has two turns for each of them, and closes it.
pub(crate) fn sit<
    'a,
    D: Disk + Send + Drop,
    G: Signer + Send + Drop,
    R: Draws + Send + Drop,
    M: Began<D, G, R> + Send + Sync,
    W: Gate + Sync,
    T: Threads + Wait + Sync,
>(
    rt: &T,
    alloc: Global,
    made: DeskMade<DeskBook<'a, D, G, R, M>>,
    board: &'a EpochBoard,
    reader: &mut BoardPass,
    lines: List<BlockLine>,
    rooms: Rooms<'a, D, G, R, M>,
    gate: &W,
) -> Blocked<D, G, R>
    requires passes { All (IsNewPass made.desk.id) made.passes }
    requires many { (1 ≤ length made.passes) × (made.desk.terms.passes ≡ length made.passes) }
    requires turns { made.desk.terms.turns ≡ 2 * rounds (length made.passes) (length lines) }
    requires board { board.now ≡ made.desk.terms.tag.board }
    requires reader { (reader.old.board ≡ board.now) × (reader.old.seen ≡ pairs_shown made.desk.terms.start) }
    requires ready { All IsReady lines }
    requires due { AreHands rooms.due.items (λ hand. hand.items) (λ hand. vec_capacity hand) (length made.passes) (length lines) }
    requires done { AreHands rooms.done.items (λ hand. hand.items) (λ hand. vec_capacity hand) (length made.passes) (length lines) }
    requires workers { IsRoomFor (length made.passes) rooms.workers.items (vec_capacity rooms.workers) }
    requires left_passes { IsRoomFor (length made.passes) rooms.left.passes.items (vec_capacity rooms.left.passes) }
    requires left_readers { IsRoomFor (length made.passes) rooms.left.readers.items (vec_capacity rooms.left.readers) }
    requires left_ran { IsRoomFor (length made.passes) rooms.left.ran.items (vec_capacity rooms.left.ran) }
    requires lines { IsRoomFor (length lines) rooms.lines.items (vec_capacity rooms.lines) }
    ensures ended { (calls : Items (Items (Call TheEntry))) × (result.calls ≡ Some calls) × IsEnded result.memory (length made.entry.passes) lines result.lines
        made.entry.desk.terms.start result.book.entries calls }
    ensures board { result.book.board ≡ made.entry.desk.terms.tag.board }
    ensures since { IsSinceIf D.Disk G.Signer R.Draws M.start result.book.server result.book.entries }
    ensures reader { reader.new ≡ reader.old }
{
    let DeskMade { desk, passes } = made;
    let Rooms {
        due,
        done,
        workers,
        left,
        lines: room,
    } = rooms;
    let count = lines.len();
    let floor = Floor {
        alloc,
        desk: &desk,
        board,
        gate,
        workers: due.len() as u64,
    };
    let seated = run_all(rt, &floor, reader, passes, lines, due, done, workers);
    let Floor {
        alloc: _,
        desk: _,
        board: _,
        gate: _,
        workers: _,
    } = floor;
    leave(desk, board, seated, left, room, count)
}

/// Deals lines to workers, who run them, each in a thread of its own.
fn run_all<
    'a,
    D: Disk + Send,
    G: Signer + Send,
    R: Draws + Send,
    M: Began<D, G, R> + Send + Sync,
    W: Gate + Sync,
    T: Threads + Wait + Sync,
>(
    rt: &T,
    floor: &Floor<'_, 'a, D, G, R, M, W>,
    reader: &mut BoardPass,
    passes: List<Pass<DeskBook<'a, D, G, R, M>>>,
    lines: List<BlockLine>,
    due: Vec<Vec<BlockLine>>,
    done: Vec<Vec<BlockLine>>,
    room: Vec<Worker<'a, D, G, R, M>>,
) -> Vec<Worker<'a, D, G, R, M>>
    requires passes { All (IsNewPass floor.now.desk.now.id) passes }
    requires some { 1 ≤ length passes }
    requires turns { floor.now.desk.now.terms.turns ≡ 2 * rounds (length passes) (length lines) }
    requires reader { (reader.old.board ≡ floor.now.board.now) × (reader.old.seen ≡ pairs_shown floor.now.desk.now.terms.start) }
    requires ready { All IsReady lines }
    requires due { AreHands due.items (λ hand. hand.items) (λ hand. vec_capacity hand) (length passes) (length lines) }
    requires done { AreHands done.items (λ hand. hand.items) (λ hand. vec_capacity hand) (length passes) (length lines) }
    requires room { IsRoomFor (length passes) room.items (vec_capacity room) }
    ensures many { length result.items ≡ length passes.entry }
    ensures ran { HaveRun lines floor.now.desk.now result.items }
    ensures reader { reader.new ≡ reader.old }
{
    no_share_has_more_than_the_rounds::<BlockLine>();
    let due = dealt(lines, due);
    let seated = seat_workers(floor, reader, passes, due, done, room);
    all_done(rt, floor, seated)
}

/// Deals lines to hands.
fn dealt(lines: List<BlockLine>, mut due: Vec<Vec<BlockLine>>) -> Vec<Vec<BlockLine>>
    requires some { 1 ≤ length due.items }
    requires hands { AreHands due.items (λ hand. hand.items) (λ hand. vec_capacity hand) (length due.items) (length lines) }
    ensures many { length result.items ≡ length due.items }
    ensures dealt { (w : ℕ) → w < length due.items →
        slice_index_or (map (λ hand. hand.items) result.items) w [] ≡ reverse (share (length due.items) w lines) }
{
    deal(lines, due.as_mut_slice());
    due
}

/// Has each worker run its lines, in a thread of its own.
fn all_done<
    'a,
    D: Disk + Send,
    G: Signer + Send,
    R: Draws + Send,
    M: Began<D, G, R> + Send + Sync,
    W: Gate + Sync,
    T: Threads + Wait + Sync,
>(
    rt: &T,
    floor: &Floor<'_, 'a, D, G, R, M, W>,
    mut seated: Vec<Worker<'a, D, G, R, M>>,
) -> Vec<Worker<'a, D, G, R, M>>
    requires some { 1 ≤ length seated.items }
    requires fresh { All (IsFresh floor.now.desk.now) seated.items }
    ensures many { length result.items ≡ length seated.entry.items }
    ensures did { (at : ℕ) (other : WorkerView) → at < length seated.entry.items →
        HasRun floor.now.desk.now (slice_index_or seated.entry.items at other) (slice_index_or result.items at other) }
{
    let workers = seated.len();
    do_all(rt, floor, seated.as_mut_slice(), workers);
    seated
}

/// Closes a desk at which all workers ran their lines.
fn leave<'a, D: Disk + Drop, G: Signer + Drop, R: Draws + Drop, M: Began<D, G, R>>(
    desk: Desk<DeskBook<'a, D, G, R, M>>,
    board: &EpochBoard,
    seated: Vec<Worker<'a, D, G, R, M>>,
    mut left: Leavings<'a, D, G, R, M>,
    room: Vec<BlockLine>,
    count: usize,
) -> Blocked<D, G, R>
    requires board { board.now ≡ desk.terms.tag.board }
    requires all { (1 ≤ length seated.items) × (desk.terms.passes ≡ length seated.items) }
    requires ran { (lines : Items Line) × (length lines ≡ count) × HaveRun lines desk seated.items }
    requires passes { IsRoomFor (length seated.items) left.passes.items (vec_capacity left.passes) }
    requires readers { IsRoomFor (length seated.items) left.readers.items (vec_capacity left.readers) }
    requires left { IsRoomFor (length seated.items) left.ran.items (vec_capacity left.ran) }
    requires room { IsRoomFor count room.items (vec_capacity room) }
    ensures ended { (lines : Items Line) → length lines ≡ count → HaveRun lines desk.entry seated.entry.items → (calls : Items (Items (Call TheEntry)))
        × (result.calls ≡ Some calls) × IsEnded result.memory (length seated.entry.items) lines result.lines desk.entry.terms.start result.book.entries calls }
    ensures board { result.book.board ≡ desk.entry.terms.tag.board }
    ensures since { IsSinceIf D.Disk G.Signer R.Draws M.start result.book.server result.book.entries }
{
    let memory = rise(seated, &mut left);
    let Leavings {
        passes,
        readers,
        ran,
    } = left;
    let Closed { kept, calls } = closed(desk, List::from_vec(passes));
    let mut book = kept.into_book();
    show_all(&mut book, board, readers);
    Blocked {
        book,
        lines: gathered(ran, room, count),
        memory,
        calls: Some(calls),
    }
}

/// Takes the lines back from the hands.
fn gathered(mut ran: Vec<Vec<BlockLine>>, room: Vec<BlockLine>, count: usize) -> List<BlockLine>
    requires some { 1 ≤ length ran.items }
    requires room { IsRoomFor count room.items (vec_capacity room) }
    requires shares { AreShares (map (λ hand. hand.items) ran.items) count }
    ensures count { length result ≡ count }
    ensures shares { (w : ℕ) → w < length ran.items →
        share (length ran.items) w result ≡ slice_index_or (map (λ hand. hand.items) ran.items) w [] }
{
    gather(ran.as_mut_slice(), room, count)
}
