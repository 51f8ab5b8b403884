//! The board on which a run shows its epochs: who looks at it takes no turn of the server.
ghost use Rattle.std.specs.Prelude.{◌≡◌, [], IfOk};
ghost use Rattle.epoch_board.specs.Pairs.{last_pair};
ghost use Rattle.group_run.specs.Private.Boards.{IsShown};
ghost use Rattle.group_steps.specs.Shows.{pairs_shown};

use epoch_board::{
    BoardMade, BoardPass, EpochBoard, Publisher, Seen, a_look_between_meetings_is_exact,
};
use group_model::{Entry, NoMemory};
use register_workers::publish;
use std::alloc::Global;

/// A board with its publisher and a pass, and from which place of the history on nothing was published yet.
#[derive(Drop)]
pub(crate) struct Board {
    pub(crate) board: EpochBoard,
    pub(crate) publisher: Publisher,
    pub(crate) reader: BoardPass,
    pub(crate) upto: usize,
}

impl Board {
    /// A board that shows nothing yet.
    pub(crate) fn new(alloc: Global) -> Result<Self, NoMemory>
        ensures { IfOk result (λ board. IsShown board []) }
    {
        let BoardMade {
            board,
            publisher,
            reader,
        } = EpochBoard::new(alloc)?;
        Ok(Board {
            board,
            publisher,
            reader,
            upto: 0,
        })
    }

    /// Publishes what these entries show, from where it stopped on.
    pub(crate) fn catch_up(&mut self, entries: &[Entry])
        requires { IsShown self.old entries.now }
        ensures shown { IsShown self.new entries.now }
        ensures all { self.new.publisher.published ≡ pairs_shown entries.now }
    {
        while let Some(entry) = entries.get(self.upto) {
            publish(&self.board, &mut self.publisher, &entry.answer);
            self.upto += 1;
        }
    }

    /// The last pair that these entries show; 0 and 0 where they show none.
    pub(crate) fn look(&mut self, entries: &[Entry]) -> Seen
        requires { IsShown self.old entries.now }
        ensures shown { IsShown self.new entries.now }
        ensures pair { result ≡ last_pair (pairs_shown entries.now) }
    {
        a_look_between_meetings_is_exact();
        self.catch_up(entries);
        self.board.meet(&mut self.publisher, &mut self.reader);
        let seen = self.board.now(&mut self.reader);
        self.board.meet(&mut self.publisher, &mut self.reader);
        seen
    }
}
