//! A book at a desk: the value that workers take turns at.
ghost use Rattle.std.specs.Prelude.{◌≡◌, [], ◌∷◌, ◌++◌, length};
ghost use Rattle.register_workers.specs.Private.Seats.{IsSinceIf};
ghost use Rattle.group_steps.specs.Shows.{pairs_shown};

use crate::Book;
use crate::requests::served;
use crate::turns::{Turn, Turned, told_by};
use desk::Kept;
use epoch_board::{EpochBoard, Publisher};
use gd_disk::Disk;
use gd_edges::{Draws, Signer};
use group_model::{Answer, Entry, Log, NoMemory};
use group_server::GroupServer;
use server_steps::{entry, one_more_is_served};
use std::alloc::Global;
use std::marker::{Brand, Model, PhantomData};
use std::sync::Wait;
use std::thread::Threads;

/// Where a block began. Each block picks it; no value has it.
pub(crate) trait Began<D, G, R> {
    ghost use Rattle.std.specs.Prelude.{Option};
    ghost use Rattle.server_steps.specs.Serves.{Start};

    ghost start: { Option (Start D G R) };
}

impl<D, G, R> Began<D, G, R> for Brand {
    ghost use Rattle.std.specs.Prelude.{None};

    ghost start = { None };
}

/// On which board a block publishes, and how many entries there were when it began. No value of it is made.
pub struct OnBoard {
    pub board: EpochBoard,
    pub begun: u64,
}

/// A book, with the board that it publishes on and the allocator of its turns.
#[derive(Drop)]
pub(crate) struct DeskBook<'a, D: Disk, G: Signer, R: Draws, M: Began<D, G, R>> {
    alloc: Global,
    server: GroupServer<D, G, R>,
    board: &'a EpochBoard,
    publisher: Publisher,
    entries: Log<Entry>,
    begun: u64,
    began: PhantomData<M>,
}

impl<'a, D: Disk, G: Signer, R: Draws, M: Began<D, G, R>> Model for DeskBook<'a, D, G, R, M> {
    ghost use Rattle.register_workers.specs.Private.Seats.{IsSeated, Seated};

    ghost Value = { Seated D G R };

    ghost view = { λ book. record {
      server = book.server;
      board = book.board.now;
      published = book.publisher.published;
      entries = book.entries.items;
      spare = book.entries.spare;
      begun = book.begun;
    } };

    ghost invariant = { λ book. IsSeated D.Disk G.Signer R.Draws M.start book.publisher.board (record {
      server = book.server;
      board = book.board.now;
      published = book.publisher.published;
      entries = book.entries.items;
      spare = book.entries.spare;
      begun = book.begun;
    }) };
}

impl<'a, D: Disk, G: Signer, R: Draws, M: Began<D, G, R>> DeskBook<'a, D, G, R, M> {
    /// A book for a block that begins now.
    pub(crate) fn of(alloc: Global, book: Book<D, G, R>, board: &'a EpochBoard) -> Self
        requires board { book.board ≡ board.now }
        requires since { IsSinceIf D.Disk G.Signer R.Draws M.start book.server book.entries }
        ensures server { result.server ≡ book.server }
        ensures board { result.board ≡ board.now }
        ensures entries { result.entries ≡ book.entries }
        ensures begun { length result.entries ≡ result.begun }
    {
        let (server, publisher, entries) = book.into_parts();
        let begun = entries.items().len() as u64;
        DeskBook {
            alloc,
            server,
            board,
            publisher,
            entries,
            begun,
            began: PhantomData,
        }
    }

    /// The book again.
    pub(crate) fn into_book(self) -> Book<D, G, R>
        ensures server { result.server ≡ self.entry.server }
        ensures board { result.board ≡ self.entry.board }
        ensures entries { result.entries ≡ self.entry.entries }
        ensures since { IsSinceIf D.Disk G.Signer R.Draws M.start result.server result.entries }
    {
        let DeskBook {
            alloc: _,
            server,
            board: _,
            publisher,
            entries,
            begun: _,
            began: _,
        } = self;
        Book::new(server, publisher, entries)
    }
}

/// Publishes what an answer shows of the epoch: the pair of a batch that was made, or of a group that was opened.
pub fn publish(board: &EpochBoard, publisher: &mut Publisher, answer: &Answer)
    requires { publisher.old.board ≡ board.now }
    ensures board { publisher.new.board ≡ publisher.old.board }
    ensures pairs { (entry : Entry) → entry.answer ≡ answer.now → publisher.new.published ≡ publisher.old.published ++ pairs_shown (entry ∷ []) }
{
    match answer {
        Answer::Batched { output } => board.publish(publisher, output.epoch, output.sequence),
        Answer::Opened { group, .. } => board.publish(publisher, group.epoch, group.sequence),
        Answer::Done
        | Answer::RuleNumber { .. }
        | Answer::Datagram { .. }
        | Answer::Queued
        | Answer::Shown { .. }
        | Answer::Pair { .. }
        | Answer::Kept { .. }
        | Answer::Lost
        | Answer::Older { .. }
        | Answer::TookRoot { .. }
        | Answer::TookTraffic { .. }
        | Answer::PushRefused { .. }
        | Answer::KeyIs { .. }
        | Answer::Nothing
        | Answer::Derived { .. }
        | Answer::Refused { .. } => (),
    }
}

impl<D: Disk, G: Signer, R: Draws, M: Began<D, G, R>> Kept for DeskBook<'_, D, G, R, M> {
    type Event = Turn;

    type Entry = Entry;

    type Answer = Turned;

    type Tag = OnBoard;

    ghost use Rattle.std.specs.Prelude.{◌≡◌, [], ◌∷◌, ◌++◌};
    ghost use Rattle.epoch_board.specs.Pairs.{StartsWith};
    ghost use Rattle.register_workers.specs.Private.Requests.{Tells, asked_of};
    ghost use Rattle.group_steps.specs.Shows.{pairs_shown};

    ghost listed = { λ book. book.entries };

    ghost spare = { λ book. book.spare };

    ghost tag = { λ book. record { board = book.board; begun = book.begun } };

    ghost begun = { λ tag. tag.begun };

    ghost Same = { λ book other. other ≡ record book { spare = other.spare } };

    ghost Suits = { λ event tag. event.reader.board ≡ tag.board };

    ghost Relates = { λ before event entry answer.
        (entry.asked ≡ asked_of event.request) × Tells entry.answer answer.told × (answer.reader.board ≡ event.reader.board)
        × (answer.reader.seen ≡ pairs_shown (before ++ entry ∷ [])) × StartsWith answer.reader.seen event.reader.seen };

    fn take<T: Threads + Wait + Sync>(&mut self, _rt: &T, _number: u64, event: Turn) -> Turned {
        one_more_is_served::<D, G, R>();
        let Turn {
            request,
            mut reader,
        } = event;
        let place = self.server.draws_at();
        let answer = served(self.alloc, &mut self.server, &request);
        let told = told_by(self.alloc, &answer);
        publish(self.board, &mut self.publisher, &answer);
        self.board.meet(&mut self.publisher, &mut reader);
        self.entries.add(entry(request.into_asked(), answer, place));
        Turned { reader, told }
    }

    fn reserve(&mut self, turns: u64) -> Result<(), NoMemory> {
        self.entries.reserve(turns)
    }
}
