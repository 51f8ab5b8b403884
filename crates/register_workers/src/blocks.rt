//! A block of lines, run by workers.
ghost use Rattle.std.specs.Prelude.{◌≡◌, ℕ, ◌*◌, ◌≤◌, length, All, true, Some};
ghost use Rattle.epoch_board.specs.Pairs.{StartsWith};
ghost use Rattle.work_shares.specs.Shares.{rounds};
ghost use Rattle.register_workers.specs.Blocks.{LeavesBlock, start_of};
ghost use Rattle.register_workers.specs.Crashes.{SurvivesCrashes};
ghost use Rattle.register_workers.specs.Lines.{IsReady};
ghost use Rattle.register_workers.specs.Private.Seating.{LeavesDesk};
ghost use Rattle.register_workers.specs.Private.Seats.{IsSinceIf};
ghost use Rattle.group_steps.specs.Shows.{pairs_shown};

use crate::desk_books::{Began, DeskBook};
use crate::seats::Rooms;
use crate::sittings::sit;
use crate::{BlockLine, Book, OnBoard};
use desk::{Calls, Desk, DeskLost};
use epoch_board::{BoardPass, EpochBoard};
use gd_disk::Disk;
use gd_edges::{Draws, Signer};
use group_model::{Entry, List};
use group_steps::a_crash_leaves_a_moment_of_what_was_served;
use server_steps::nothing_was_served_yet;
use std::alloc::Global;
use std::marker::Brand;
use std::sync::Wait;
use std::thread::Threads;
use work_shares::Gate;

/// What a block leaves.
#[derive(Drop)]
pub struct Blocked<D: Disk, G: Signer, R: Draws> {
    pub book: Book<D, G, R>,
    pub lines: List<BlockLine>,
    /// Whether want of memory ended some line, or there was none for the block itself.
    pub memory: bool,
    /// What each worker asked; `None` where there was no memory for the block itself.
    pub calls: Option<Calls<Entry, OnBoard>>,
}

/// Has so many workers run the lines of a block, each in a thread of its own. Worker `w` of `n` runs the lines at the places `w`, `w + n` and so on, one after
/// the other.
///
/// A line asks the server in turns: a join or a line that sends again has one or two, a leave and a batch one each, and a look none. What is lost, and what
/// members do with datagrams, is outside the turns. Each worker tells the gate the number of a line, from 1, before its first turn.
///
/// A crash at any moment leaves the group after some of the turns, or with the batch that is being written; no batch that was stored by then is lost.
///
/// There are 1 to 512 lines and 1 to 16 workers, and each line whose member sends has a pull and a datagram. The pass of the board is shown all that was
/// published.
pub fn run_block<
    D: Disk + Send + Drop,
    G: Signer + Send + Drop,
    R: Draws + Send + Drop,
    W: Gate + Sync,
    T: Threads + Wait + Sync,
>(
    rt: &T,
    alloc: Global,
    book: Book<D, G, R>,
    board: &EpochBoard,
    reader: &mut BoardPass,
    lines: List<BlockLine>,
    workers: u8,
    gate: &W,
) -> Blocked<D, G, R>
    requires board { (book.board ≡ board.now) × (reader.old.board ≡ board.now) }
    requires lines { (1 ≤ length lines) × (length lines ≤ 512) }
    requires workers { (1 ≤ workers) × (workers ≤ 16) }
    requires ready { All IsReady lines }
    ensures block { LeavesBlock D.Disk G.Signer R.Draws result.calls result.memory workers lines result.lines book result.book }
    ensures crash { SurvivesCrashes D.Disk G.Signer R.Draws book result.book }
    ensures board { result.book.board ≡ board.now }
    ensures reader { (reader.new.board ≡ board.now) × StartsWith reader.new.seen reader.old.seen }
    ensures shown { reader.new.seen ≡ result.book.published }
{
    run_from::<D, G, R, Brand, W, T>(rt, alloc, book, board, reader, lines, workers, gate)
}

/// Runs a block that begins where `M` says.
fn run_from<
    D: Disk + Send + Drop,
    G: Signer + Send + Drop,
    R: Draws + Send + Drop,
    M: Began<D, G, R> + Send + Sync,
    W: Gate + Sync,
    T: Threads + Wait + Sync,
>(
    rt: &T,
    alloc: Global,
    mut book: Book<D, G, R>,
    board: &EpochBoard,
    reader: &mut BoardPass,
    lines: List<BlockLine>,
    workers: u8,
    gate: &W,
) -> Blocked<D, G, R>
    requires start { M.start ≡ Some (start_of book) }
    requires board { (book.board ≡ board.now) × (reader.old.board ≡ board.now) }
    requires lines { (1 ≤ length lines) × (length lines ≤ 512) }
    requires workers { (1 ≤ workers) × (workers ≤ 16) }
    requires ready { All IsReady lines }
    ensures block { LeavesBlock D.Disk G.Signer R.Draws result.calls result.memory workers lines result.lines book result.book }
    ensures crash { SurvivesCrashes D.Disk G.Signer R.Draws book result.book }
    ensures board { result.book.board ≡ board.now }
    ensures reader { (reader.new.board ≡ board.now) × StartsWith reader.new.seen reader.old.seen }
    ensures shown { reader.new.seen ≡ result.book.published }
{
    nothing_was_served_yet::<D, G, R>();
    a_crash_leaves_a_moment_of_what_was_served::<D, G>();
    book.show(board, reader);
    let kept: DeskBook<'_, D, G, R, M> = DeskBook::of(alloc, book, board);
    let mut blocked = at_desk(
        rt,
        alloc,
        kept,
        board,
        reader,
        lines,
        usize::from(workers),
        gate,
    );
    blocked.book.show(board, reader);
    blocked
}

/// Runs a block at a desk, if there is memory for both.
fn at_desk<
    'a,
    D: Disk + Send + Drop,
    G: Signer + Send + Drop,
    R: Draws + Send + Drop,
    M: Began<D, G, R> + Send + Sync,
    W: Gate + Sync,
    T: Threads + Wait + Sync,
>(
    rt: &T,
    alloc: Global,
    book: DeskBook<'a, D, G, R, M>,
    board: &'a EpochBoard,
    reader: &mut BoardPass,
    lines: List<BlockLine>,
    workers: usize,
    gate: &W,
) -> Blocked<D, G, R>
    requires begun { length book.entries ≡ book.begun }
    requires board { (book.board ≡ board.now) × (reader.old.board ≡ board.now) }
    requires lines { (1 ≤ length lines) × (length lines ≤ 512) }
    requires workers { (1 ≤ workers) × (workers ≤ 16) }
    requires ready { All IsReady lines }
    requires shown { reader.old.seen ≡ pairs_shown book.entries }
    ensures ended { LeavesDesk result.calls result.memory workers lines result.lines book.entry.server book.entry.entries result.book }
    ensures board { result.book.board ≡ board.now }
    ensures since { IsSinceIf D.Disk G.Signer R.Draws M.start result.book.server result.book.entries }
    ensures reader { reader.new ≡ reader.old }
{
    let count = lines.len();
    let Ok(rooms) = Rooms::new(alloc, workers, count) else {
        return untouched(book, lines);
    };
    match Desk::new(alloc, book, workers as u32, turns_each(count, workers)) {
        Ok(made) => sit(rt, alloc, made, board, reader, lines, rooms, gate),
        Err(DeskLost { kept, why: _ }) => untouched(kept, lines),
    }
}

/// How many turns each worker may make: two for each of its lines.
fn turns_each(lines: usize, workers: usize) -> u64
    requires lines { (1 ≤ lines) × (lines ≤ 512) }
    requires workers { 1 ≤ workers }
    ensures some { 1 ≤ result }
    ensures few { result ≤ 4096 }
    ensures two { result ≡ 2 * rounds workers lines }
{
    2 * lines.div_ceil(workers) as u64
}

/// What is left of a block for which there was no memory.
fn untouched<D: Disk, G: Signer, R: Draws, M: Began<D, G, R>>(
    book: DeskBook<'_, D, G, R, M>,
    lines: List<BlockLine>,
) -> Blocked<D, G, R>
    ensures ended { (workers : ℕ) → LeavesDesk result.calls result.memory workers lines result.lines book.entry.server book.entry.entries result.book }
    ensures board { result.book.board ≡ book.entry.board }
    ensures since { IsSinceIf D.Disk G.Signer R.Draws M.start result.book.server result.book.entries }
{
    Blocked {
        book: book.into_book(),
        lines,
        memory: true,
        calls: None,
    }
}
