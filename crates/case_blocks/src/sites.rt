//! A key server with its history, and the board of its epochs.
ghost use Rattle.std.specs.Prelude.{◌≡◌, ◌≤◌, length, All};
ghost use Rattle.register_workers.specs.Lines.{IsReady};

use crate::groups::TestBook;
use epoch_board::{BoardPass, EpochBoard};
use group_model::Entry;
use group_terms::List;
use register_workers::{BlockLine, run_block};
use std::alloc::Global;
use std::sync::Wait;
use std::thread::Threads;
use work_shares::Gate;

#[derive(Drop)]
pub struct Site {
    pub board: EpochBoard,
    pub reader: BoardPass,
    pub book: TestBook,
    pub ghost one_board: { (book.board ≡ board) × (reader.board ≡ board) },
}

/// The same after a block, with the lines, and whether memory was short.
#[derive(Drop)]
pub struct Served {
    pub site: Site,
    pub lines: List<BlockLine>,
    pub memory: bool,
}

impl Site {
    /// Runs these lines by so many workers.
    pub fn serve<R: Threads + Wait + Sync, W: Gate + Sync>(
        self,
        rt: &R,
        alloc: Global,
        lines: List<BlockLine>,
        workers: u8,
        gate: &W,
    ) -> Served
        requires lines { (1 ≤ length lines) × (length lines ≤ 512) }
        requires workers { (1 ≤ workers) × (workers ≤ 16) }
        requires ready { All IsReady lines }
    {
        let Site {
            board,
            mut reader,
            book,
        } = self;
        let blocked = run_block(rt, alloc, book, &board, &mut reader, lines, workers, gate);
        let site = Site {
            board,
            reader,
            book: blocked.book,
        };
        Served {
            site,
            lines: blocked.lines,
            memory: blocked.memory,
        }
    }

    /// How many entries the history has.
    pub fn count(&self) -> usize {
        self.book.entries().len()
    }

    /// The entries from a place on.
    pub fn turns(&self, before: usize) -> Option<&[Entry]> {
        self.book.entries().get(before..)
    }

    /// The book alone.
    pub fn into_book(self) -> TestBook {
        self.book
    }
}
