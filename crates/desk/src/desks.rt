//! The desk itself, and what contracts see of it.
ghost use Rattle.std.specs.Prelude.{◌≡◌, ◌≤◌, Some};
ghost use Rattle.desk.specs.Opened.{terms_of};
ghost use Rattle.desk.specs.Seats.{IsSized};

use crate::Kept;
use crate::bells::Bells;
use crate::rules::Board;
use std::marker::Model;

/// A value at which threads take turns.
///
/// Contracts see which desk it is, and its terms: the history as it was when the desk was made, how many passes there are, how many turns
/// each pass has, and the tag of the value.
pub struct Desk<K: Kept> {
    pub(crate) table: Board<K>,
    pub(crate) passes: u32,
    pub(crate) turns: u64,
    pub(crate) bells: Bells,
}

impl<K: Kept> Model for Desk<K> {
    ghost use Rattle.desk.specs.Views.{Told};

    ghost Value = { Told K.Entry K.Tag };

    ghost use Rattle.std.specs.Prelude.{Some};
    ghost use Rattle.desk.specs.Opened.{terms_of, IsDesk};

    ghost view = { λ desk. record {
      id = record { table = desk.table.shared.table_id; told = Some (terms_of K.listed K.tag desk.table.shared.key) };
      terms = terms_of K.listed K.tag desk.table.shared.key;
    } };

    ghost invariant = { λ desk. IsDesk K.begun desk.table.shared.table_id (terms_of K.listed K.tag desk.table.shared.key) desk.passes desk.turns };
}

impl<K: Kept> Desk<K> {
    pub(crate) fn into_table(self) -> Board<K>
        ensures id { self.id ≡ record { table = result.shared.table_id; told = Some (terms_of K.listed K.tag result.shared.key) } }
        ensures terms { self.terms ≡ terms_of K.listed K.tag result.shared.key }
        ensures sized { IsSized result.shared.table_id self.terms × (1 ≤ self.terms.passes) }
    {
        let Desk {
            table,
            passes: _,
            turns: _,
            bells: _,
        } = self;
        table
    }
}

impl<K: Kept + Drop> Drop for Desk<K> {
    fn drop(self) {
        let Desk {
            table: _,
            passes: _,
            turns: _,
            bells: _,
        } = self;
    }
}
