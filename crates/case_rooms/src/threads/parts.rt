//! A publisher and passes with the board that they are of.
ghost use Rattle.std.specs.Prelude.{◌≡◌};

use epoch_board::{BoardPass, EpochBoard, Publisher, Seen};

#[derive(Drop)]
pub struct Ledger<'a> {
    pub board: &'a EpochBoard,
    pub publisher: Publisher,
    pub ghost one_board: { publisher.board ≡ board.now },
}

impl Ledger<'_> {
    /// Publishes a pair of this number twice.
    pub fn publish(&mut self, number: u32) {
        self.board.publish(&mut self.publisher, number, number);
    }
}

#[derive(Drop)]
pub struct Watch<'a> {
    pub board: &'a EpochBoard,
    pub pass: BoardPass,
    /// Each pair that was seen had one number twice, and none was less than the one before it.
    pub rises: bool,
    pub ghost one_board: { pass.board ≡ board.now },
}

impl<'a> Watch<'a> {
    /// Another one over the same board.
    pub fn another(&mut self) -> Watch<'a> {
        Watch {
            board: self.board,
            pass: self.board.split(&mut self.pass),
            rises: true,
        }
    }

    /// Looks so often. What was found is written down at the end alone, since the watch may lie beside the word of the board.
    pub fn look(&mut self, looks: u32) {
        let mut before = self.board.now(&mut self.pass);
        let mut rises = self.rises;
        for _ in 0..looks {
            let seen = self.board.now(&mut self.pass);
            rises &= may_follow(before, seen);
            before = seen;
        }
        self.rises = rises;
    }

    /// Whether what was seen rises to the pair of this number, which is seen now.
    pub fn rises_to(&mut self, last: u32) -> bool {
        let seen = self.board.now(&mut self.pass);
        self.rises & (seen.epoch == last) & (seen.sequence == last)
    }
}

/// Whether this pair has one number twice, and is not less than the one before it.
fn may_follow(before: Seen, seen: Seen) -> bool {
    seen.epoch >= before.epoch && seen.epoch == seen.sequence
}
