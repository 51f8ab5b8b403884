//! What each seat of a board's table knows, what holds of all of them together, and what a step tells.
use crate::moments::Moment;
use atomic_table::{Join, Play, Split, TableRule};
use std::collections::LinkedList;

/// What a seat knows. No value of it is made.
pub enum View {
    /// The publisher's: the history as far as it knows it, and another first part of it that it was told of.
    Publishes(LinkedList<Moment>, LinkedList<Moment>),
    /// That of a pass: the history as far as it knows it.
    Follows(LinkedList<Moment>),
}

/// There is one history, which begins with what each seat knows. The word is the pair that was published last in it.
pub struct InOrder;

impl TableRule<(), View, ()> for InOrder {
    ghost use Rattle.std.specs.Prelude.{[]};
    ghost use Rattle.epoch_board.specs.declared.rule.View.TheVariants.{Publishes};
    ghost use Rattle.epoch_board.specs.Private.Rule.{IsInOrder};

    ghost holds = { λ _. IsInOrder };

    ghost first = { λ _. Publishes [] [] };
}

/// A store by the publisher.
pub struct Publish;

impl Play<(), View> for Publish {
    ghost use Rattle.epoch_board.specs.Private.Rule.{Adds};

    ghost then = { λ _. Adds };
}

/// A load by a pass.
pub struct Look;

impl Play<(), View> for Look {
    ghost use Rattle.epoch_board.specs.Private.Rule.{Sees};

    ghost then = { λ _. Sees };
}

/// A load by the publisher.
pub struct Compare;

impl Play<(), View> for Compare {
    ghost use Rattle.epoch_board.specs.Private.Rule.{Compares};

    ghost then = { λ _. Compares };
}

/// A new pass is told what another, or the publisher, knows.
pub struct Tell;

impl Split<View> for Tell {
    ghost use Rattle.epoch_board.specs.Private.Rule.{follower_of};

    ghost left = { λ view. view };

    ghost right = { follower_of };
}

/// The publisher is told what a pass knows.
pub struct TakeIn;

impl Join<View> for TakeIn {
    ghost use Rattle.std.specs.Prelude.{[]};
    ghost use Rattle.epoch_board.specs.declared.rule.View.TheVariants.{Follows};
    ghost use Rattle.epoch_board.specs.Private.Rule.{with_beside};

    ghost both = { with_beside };

    ghost spent = { Follows [] };
}
