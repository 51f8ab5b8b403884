//! The passes, with which threads take their turns.
ghost use Rattle.std.specs.Prelude.{◌≡◌, length};
ghost use Rattle.desk.specs.Seats.{IsPass, holder};

use crate::Kept;
use crate::rules::Place;
use std::marker::Model;

/// What a thread takes its turns with. It knows a first part of the history, and its own calls.
pub struct Pass<K: Kept> {
    pub(crate) seat: Place<K>,
    pub(crate) made: u64,
}

impl<K: Kept> Model for Pass<K> {
    ghost use Rattle.desk.specs.Views.{Holder};

    ghost Value = { Holder K.Entry K.Tag };

    ghost use Rattle.desk.specs.Seats.{IsPass, holder};

    ghost view = { λ pass. holder pass.seat };

    ghost invariant = { λ pass. IsPass pass.seat pass.made };
}

impl<K: Kept> Pass<K> {
    pub(crate) fn into_seat(self) -> Place<K>
        ensures seat { IsPass result (length self.mine) }
        ensures pass { self ≡ holder result }
    {
        let Pass { seat, made: _ } = self;
        seat
    }
}

impl<K: Kept> Drop for Pass<K> {
    fn drop(self) {
        let Pass { seat: _, made: _ } = self;
    }
}
