//! The right to publish on a board, and the right to look at one.
ghost use Rattle.std.specs.Prelude.{◌≡◌, []};
ghost use Rattle.epoch_board.specs.Passes.{PassState, PublisherState};
ghost use Rattle.epoch_board.specs.Private.Rule.{moments_of, pass_state, publisher_state};
ghost use Rattle.epoch_board.specs.declared.rule.View.TheVariants.{Follows, Publishes};

use crate::rule::View;
use atomic_table::Seat;
use std::marker::Model;

/// The right to publish on one board, which has one publisher.
///
/// It takes no bytes. Contracts see its board, the pairs that it published, in order, and the history of the board as far as it knows it.
#[derive(Drop)]
pub struct Publisher {
    pub(crate) seat: Seat<(), View>,
}

impl Model for Publisher {
    ghost Value = { PublisherState };

    ghost view = { λ publisher. publisher_state publisher.seat.table_id publisher.seat.me.0 };

    ghost invariant = { λ publisher. publisher.seat.me ≡ (Publishes (moments_of publisher.seat.me.0) [], []) };
}

/// The right to look at one board.
///
/// It takes no bytes. Contracts see its board, the published pairs that it has seen, in order, and the history of the board as far as it knows it.
#[derive(Drop)]
pub struct BoardPass {
    pub(crate) seat: Seat<(), View>,
}

impl Model for BoardPass {
    ghost Value = { PassState };

    ghost view = { λ pass. pass_state pass.seat.table_id pass.seat.me.0 };

    ghost invariant = { λ pass. pass.seat.me ≡ (Follows (moments_of pass.seat.me.0), []) };
}
