//! The rule of the desk's table.
//!
//! Word 0 is the next ticket, word 1 the ticket that is served, and word 2 how many entries there are since the desk's making. The one
//! slot has the value.
use crate::Kept;
use crate::views::View;
use atomic_table::{Seat, Shared, Table, TableRule};
use std::alloc::Global;
use std::snapshot::Snapshot;

pub(crate) const TICKET: usize = 0;

pub(crate) const SERVED: usize = 1;

pub(crate) const COUNT: usize = 2;

/// What the table is told when it is made.
pub struct Opening<K> {
    pub kept: Snapshot<K>,
    pub passes: u64,
    pub turns: u64,
}

impl<K> Drop for Opening<K> {
    fn drop(self) {
        let Opening {
            kept: _,
            passes: _,
            turns: _,
        } = self;
    }
}

pub struct InTurn;

impl<K: Kept> TableRule<Option<K>, View<K::Entry, K::Tag>, Opening<K>> for InTurn {
    ghost use Rattle.desk.specs.Turns.{Stands, maker};
    ghost use Rattle.desk.specs.Opened.{terms_of};

    ghost holds = { λ opening. Stands K.listed K.spare K.tag (terms_of K.listed K.tag opening) };

    ghost first = { λ opening. maker (terms_of K.listed K.tag opening) };
}

pub(crate) type Seen<K> = View<<K as Kept>::Entry, <K as Kept>::Tag>;

pub(crate) type Place<K> = Seat<Option<K>, Seen<K>>;

pub(crate) type Top<K> = Shared<Option<K>, Seen<K>, Opening<K>, InTurn>;

pub(crate) type Board<K> = Table<Option<K>, Seen<K>, Opening<K>, InTurn, Global>;
