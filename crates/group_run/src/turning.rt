//! The turns of a block: workers run its lines side by side.
ghost use Rattle.std.specs.Prelude.{◌≡◌, ◌<◌, ◌≤◌, ◌*◌, ◌^◌, [], All, length};
ghost use Rattle.group_run.specs.Private.Ran.{HasTurned, IsOfPeer, IsSmall};
ghost use Rattle.register_workers.specs.Lines.{IsReady};
ghost use Rattle.register_workers.specs.Own.{AreApart};
ghost use Rattle.register_workers.specs.declared.lines.BlockLine.{BlockLine as Line};
ghost use Rattle.work_shares.specs.Shares.{rounds};

use crate::GroupRun;
use crate::boards::Board;
use crate::sending::note_turns;
use crate::unread::Unread;
use gd_disk::Disk;
use gd_edges::{Draws, Signer};
use group_model::{Answer, Entry, List};
use register_workers::{
    BlockLine, Blocked, Book, a_block_has_few_turns, each_line_has_its_own_turns, run_block,
};
use server_steps::nothing_was_served_yet;
use std::alloc::Global;
use std::sync::Wait;
use std::thread::Threads;
use sym_closure::what_is_known_stays_known;
use work_shares::Gate;

/// A run after the turns of a block.
#[derive(Drop)]
pub(crate) struct Turned<D: Disk, G: Signer, R: Draws> {
    pub(crate) run: GroupRun<D, G, R>,
    /// What became of the lines.
    pub(crate) lines: List<BlockLine>,
    /// Whether want of memory ended some line, or there was none for the block itself.
    pub(crate) short: bool,
    /// Whether there was memory for the block itself.
    pub(crate) ran: bool,
}

impl<D: Disk + Send + Drop, G: Signer + Send + Drop, R: Draws + Send + Drop> GroupRun<D, G, R> {
    /// Has so many workers run these lines. What they send is in the history, and members know of none of it yet.
    pub(crate) fn take_turns<W: Gate + Sync, T: Threads + Wait + Sync>(
        self,
        rt: &T,
        alloc: Global,
        lines: List<BlockLine>,
        workers: u8,
        gate: &W,
    ) -> Turned<D, G, R>
        requires lines { length lines ≤ 512 }
        requires workers { (1 ≤ workers) × (workers ≤ 16) }
        requires ready { All IsReady lines }
        requires apart { AreApart lines }
        requires peers { All (λ (line : Line). IsOfPeer self.members.all line.asked) lines }
        requires rest { self.members.mail ≡ [] }
        ensures { HasTurned D.Disk G.Signer R.Draws workers result.short result.ran lines result.lines self result.run }
    {
        what_is_known_stays_known();
        nothing_was_served_yet::<D, G, R>();
        each_line_has_its_own_turns();
        a_block_has_few_turns();
        if lines.is_empty() {
            return Turned {
                run: self,
                lines,
                short: false,
                ran: true,
            };
        }
        let GroupRun {
            server,
            members,
            unread,
            sent,
            mut pushes,
            mut board,
            entries,
        } = self;
        let most = most_pushes(lines.len(), workers);
        if pushes.reserve(most).is_err() {
            return Turned {
                run: GroupRun {
                    server,
                    members,
                    unread,
                    sent,
                    pushes,
                    board,
                    entries,
                },
                lines,
                short: true,
                ran: false,
            };
        }
        board.catch_up(entries.items());
        let first = entries.items().len();
        let Board {
            board,
            publisher,
            mut reader,
            upto: _,
        } = board;
        let book = Book::new(server, publisher, entries);
        let Blocked {
            book,
            lines,
            memory,
            calls,
        } = run_block(rt, alloc, book, &board, &mut reader, lines, workers, gate);
        let (server, publisher, entries) = book.into_parts();
        prove_small(entries.items());
        note_turns(&mut pushes, entries.items(), first);
        let upto = entries.items().len();
        Turned {
            run: GroupRun {
                server,
                members,
                unread: Unread {
                    place: upto,
                    taken: 0,
                },
                sent,
                pushes,
                board: Board {
                    board,
                    publisher,
                    reader,
                    upto,
                },
                entries,
            },
            lines,
            short: memory,
            ran: calls.is_some(),
        }
    }
}

/// How many pushes such a block sends at the most: two in each of two turns of a line.
fn most_pushes(lines: usize, workers: u8) -> u64
    requires lines { lines ≤ 512 }
    requires workers { (1 ≤ workers) × (workers ≤ 16) }
    ensures { result ≡ 4 * (workers * rounds workers lines) }
{
    4 * (u64::from(workers) * lines.div_ceil(usize::from(workers)) as u64)
}

/// The number of a batch has 32 bits.
fn prove_small(entries: &[Entry])
    ensures { All IsSmall entries.now }
{
    for place in 0..entries.len() {
        prove_small_one(&entries[place]);
    }
}

fn prove_small_one(entry: &Entry)
    ensures { IsSmall entry.now }
{
    match &entry.answer {
        Answer::Batched { output } => prove_number(output.sequence),
        _ => {}
    }
}

fn prove_number(number: u32)
    ensures { number < 2 ^ 32 }
{}
