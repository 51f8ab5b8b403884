//! Workers, each with its lines.
ghost use Rattle.std.specs.Prelude.{◌≡◌, ◌+◌, ◌≤◌, [], length, reverse, All, vec_len, vec_capacity};
ghost use Rattle.register_workers.specs.Lines.{IsReady};
ghost use Rattle.register_workers.specs.Workers.{RanAll};

use crate::BlockLine;
use crate::desk_books::{Began, DeskBook};
use crate::running::run_line;
use desk::{Desk, Pass};
use desk_sites::Bench;
use epoch_board::{BoardPass, EpochBoard};
use gd_disk::Disk;
use gd_edges::{Draws, Signer};
use std::alloc::Global;
use std::marker::Model;
use std::sync::Wait;
use std::thread::Threads;
use work_shares::Gate;

/// What workers share: the desk, the board, and the gate that lines reach.
pub(crate) struct Floor<'f, 'a, D: Disk, G: Signer, R: Draws, M: Began<D, G, R>, W> {
    pub(crate) alloc: Global,
    pub(crate) desk: &'f Desk<DeskBook<'a, D, G, R, M>>,
    pub(crate) board: &'a EpochBoard,
    pub(crate) gate: &'f W,
    /// How many workers there are.
    pub(crate) workers: u64,
    ghost one_board: { board.now ≡ desk.now.terms.tag.board },
}

/// One worker: its passes, and its lines.
#[derive(Drop)]
pub(crate) struct Worker<'a, D: Disk, G: Signer, R: Draws, M: Began<D, G, R>> {
    pub(crate) pass: Pass<DeskBook<'a, D, G, R, M>>,
    pub(crate) reader: BoardPass,
    /// The lines that it has still to run, the last one first.
    pub(crate) due: Vec<BlockLine>,
    /// Those that it ran.
    pub(crate) done: Vec<BlockLine>,
    /// The number of the next line.
    pub(crate) number: u64,
    /// Whether want of memory ended a line.
    pub(crate) memory: bool,
}

impl<'a, D: Disk, G: Signer, R: Draws, M: Began<D, G, R>> Model for Worker<'a, D, G, R, M> {
    ghost use Rattle.std.specs.Prelude.{◌+◌, ◌≤◌, vec_len, vec_capacity};
    ghost use Rattle.register_workers.specs.Private.Running.{Worker as WorkerView};

    ghost Value = { WorkerView };

    ghost view = { λ worker. record {
      pass = worker.pass;
      reader = worker.reader;
      due = worker.due.items;
      done = worker.done.items;
      memory = worker.memory;
    } };

    ghost invariant = { λ worker. vec_len worker.due + vec_len worker.done ≤ vec_capacity worker.done };
}

/// Runs the lines that are due, one after the other. Answers whether want of memory ended one.
fn run_lines<
    'a,
    D: Disk,
    G: Signer,
    R: Draws,
    M: Began<D, G, R>,
    W: Gate,
    T: Threads + Wait + Sync,
>(
    rt: &T,
    floor: &Floor<'_, 'a, D, G, R, M, W>,
    pass: &mut Pass<DeskBook<'a, D, G, R, M>>,
    reader: &mut BoardPass,
    due: &mut Vec<BlockLine>,
    done: &mut Vec<BlockLine>,
    first: u64,
) -> bool
    requires own { (pass.old.desk ≡ floor.now.desk.now.id) × (reader.old.board ≡ floor.now.board.now) }
    requires fresh { (pass.old.mine ≡ []) × (done.old.items ≡ []) }
    requires turns { length due.old.items + length due.old.items ≤ floor.now.desk.now.terms.turns }
    requires ready { All IsReady due.old.items }
    requires room { vec_len due.old + vec_len done.old ≤ vec_capacity done.old }
    ensures own { (pass.new.desk ≡ pass.old.desk) × (reader.new.board ≡ reader.old.board) }
    ensures ran { RanAll (length floor.now.desk.now.terms.start) pass.new.seen reader.new.seen result (reverse due.old.items) reader.old.seen pass.new.mine
        done.new.items reader.new.seen }
    ensures room { vec_len due.new + vec_len done.new ≤ vec_capacity done.new }
{
    let mut memory = false;
    let mut number = first;
    while let Some(mut line) = due.pop() {
        let short = run_line(rt, floor, number, pass, reader, &mut line);
        memory |= short;
        number = number.saturating_add(floor.workers);
        done.push_reserved(line);
    }
    memory
}

impl<'a, D: Disk, G: Signer, R: Draws, M: Began<D, G, R>, W: Gate> Bench
    for Floor<'_, 'a, D, G, R, M, W> {
    type Job = Worker<'a, D, G, R, M>;

    ghost use Rattle.register_workers.specs.Private.Running.{HasRun, IsFresh};

    ghost Fits = { λ floor worker. IsFresh floor.desk.now worker };

    ghost Did = { λ floor old new. HasRun floor.desk.now old new };

    fn do_one<T: Threads + Wait + Sync>(&self, rt: &T, job: &mut Worker<'a, D, G, R, M>) {
        job.memory = run_lines(
            rt,
            self,
            &mut job.pass,
            &mut job.reader,
            &mut job.due,
            &mut job.done,
            job.number,
        );
    }
}
