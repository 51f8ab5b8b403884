//! Boards: how a publisher publishes a pair, and a pass looks at the last one.
ghost use Rattle.std.specs.Prelude.{◌≡◌, [], ◌∷◌, ◌++◌, IfOk};
ghost use Rattle.epoch_board.specs.declared.moments.Moment.TheVariants.{Published, Looked};
ghost use Rattle.epoch_board.specs.Moments.{pairs_in, EndsWith};
ghost use Rattle.epoch_board.specs.Pairs.{last_pair, StartsWith};

use crate::pairs::{Seen, from_word, to_word};
use crate::passes::{BoardPass, Publisher};
use crate::rule::{Compare, InOrder, Look, Publish, TakeIn, Tell, View};
use atomic_table::Table;
use group_terms::NoMemory;
use std::alloc::Global;
use std::marker::Model;
use std::mem;

/// Shows the last published pair. It can be lent to any number of threads.
///
/// Contracts see which board it is, and no more: what was published, the publisher and the passes know.
#[derive(Drop)]
pub struct EpochBoard {
    table: Table<(), View, (), InOrder, Global>,
}

impl Model for EpochBoard {
    ghost use Rattle.std.specs.Prelude.{◌≡◌};
    ghost use Rattle.atomic_table.specs.Seated.{TableId, table_id_coded};

    ghost Value = { TableId };

    ghost coded = { table_id_coded };

    ghost view = { λ board. board.table.shared.table_id };

    ghost invariant = { λ board. board.table.shared.table_id.words ≡ 1 };
}

/// A new board, its one publisher, and a first pass. `EpochBoard::split` makes more passes.
#[derive(Drop)]
pub struct BoardMade {
    pub board: EpochBoard,
    pub publisher: Publisher,
    pub reader: BoardPass,
}

impl EpochBoard {
    /// A board that shows 0, 0, its publisher, and a pass. `NoMemory` if out of memory for them.
    pub fn new(alloc: Global) -> Result<BoardMade, NoMemory>
        ensures publisher { IfOk result (λ made. made.publisher ≡ record { board = made.board; published = []; moments = [] }) }
        ensures reader { IfOk result (λ made. made.reader ≡ record { board = made.board; seen = []; moments = [] }) }
    {
        let (board, mut publisher) = EpochBoard::with_publisher(alloc)?;
        let reader = board.informed_pass(&mut publisher);
        Ok(BoardMade {
            board,
            publisher,
            reader,
        })
    }

    /// One more pass of the same board, which has seen as much as this one.
    pub fn split(&self, pass: &mut BoardPass) -> BoardPass
        requires { pass.old.board ≡ self.now }
        ensures new { result ≡ pass.old }
        ensures same { pass.new ≡ pass.old }
    {
        let seat = self.table.shared.split_seat::<Tell>(&mut pass.seat);
        BoardPass { seat }
    }

    /// From now on the board shows this pair, whatever it showed before: a moment of the board's history, after all that the publisher knows of.
    pub fn publish(&self, publisher: &mut Publisher, epoch: u32, sequence: u32)
        requires { publisher.old.board ≡ self.now }
        ensures board { publisher.new.board ≡ publisher.old.board }
        ensures pair { publisher.new.published ≡ publisher.old.published ++ record { epoch = epoch; sequence = sequence } ∷ [] }
        ensures moment { EndsWith (Published (record { epoch = epoch; sequence = sequence })) publisher.old.moments publisher.new.moments }
        ensures published { publisher.new.published ≡ pairs_in publisher.new.moments }
    {
        let word = to_word(Seen { epoch, sequence });
        let shared = &self.table.shared;
        shared.store::<Publish>(&mut publisher.seat, 0, word);
    }

    /// The pair that the board shows, or 0, 0 where nothing was published yet. The pass has then seen all pairs up to this one.
    ///
    /// The look is a moment of the board's history, after all that the pass knows of, and what was published before it is what the pass has seen.
    pub fn now(&self, pass: &mut BoardPass) -> Seen
        requires { pass.old.board ≡ self.now }
        ensures board { pass.new.board ≡ pass.old.board }
        ensures seen { StartsWith pass.new.seen pass.old.seen }
        ensures pair { result ≡ last_pair pass.new.seen }
        ensures moment { EndsWith Looked pass.old.moments pass.new.moments }
        ensures shown { pass.new.seen ≡ pairs_in pass.new.moments }
    {
        let word = self.table.shared.load::<Look>(&mut pass.seat, 0);
        from_word(word)
    }

    /// Shows the pass all that was published: no later look of it is at an earlier pair.
    pub fn meet(&self, publisher: &mut Publisher, pass: &mut BoardPass)
        requires publisher { publisher.old.board ≡ self.now }
        requires pass { pass.old.board ≡ self.now }
        ensures publisher { (publisher.new.board ≡ publisher.old.board) × (publisher.new.published ≡ publisher.old.published) }
        ensures board { pass.new.board ≡ pass.old.board }
        ensures seen { pass.new.seen ≡ publisher.old.published }
        ensures before { StartsWith pass.new.seen pass.old.seen }
        ensures moments { (pass.new.moments ≡ publisher.new.moments) × StartsWith pass.new.moments publisher.old.moments
            × StartsWith pass.new.moments pass.old.moments }
        ensures shown { pass.new.seen ≡ pairs_in pass.new.moments }
    {
        let informed = self.informed_pass(publisher);
        let before = mem::replace(pass, informed);
        self.compare(publisher, before);
        *pass = self.informed_pass(publisher);
    }

    /// A board that has no pass yet.
    fn with_publisher(alloc: Global) -> Result<(EpochBoard, Publisher), NoMemory>
        ensures { IfOk result (λ made. made.1 ≡ record { board = made.0; published = []; moments = [] }) }
    {
        let (table, seat) = Table::of_words(alloc, &[0], &())?;
        Ok((EpochBoard { table }, Publisher { seat }))
    }

    /// A new pass, which knows as much as the publisher.
    fn informed_pass(&self, publisher: &mut Publisher) -> BoardPass
        requires { publisher.old.board ≡ self.now }
        ensures pass { result ≡ record { board = self.now; seen = publisher.old.published; moments = publisher.old.moments } }
        ensures shown { publisher.old.published ≡ pairs_in publisher.old.moments }
        ensures publisher { publisher.new ≡ publisher.old }
    {
        let told = self.table.shared.split_seat::<Tell>(&mut publisher.seat);
        BoardPass { seat: told }
    }

    /// Takes in a pass: the publisher knows then of all that it knew of.
    fn compare(&self, publisher: &mut Publisher, pass: BoardPass)
        requires publisher { publisher.old.board ≡ self.now }
        requires pass { pass.board ≡ self.now }
        ensures publisher { (publisher.new.board ≡ publisher.old.board) × (publisher.new.published ≡ publisher.old.published) }
        ensures pass { StartsWith publisher.old.published pass.seen }
        ensures moments { StartsWith publisher.new.moments publisher.old.moments × StartsWith publisher.new.moments pass.moments }
    {
        let BoardPass { seat } = pass;
        let shared = &self.table.shared;
        shared.join_seat::<TakeIn>(&mut publisher.seat, seat);
        shared.load::<Compare>(&mut publisher.seat, 0);
    }
}
