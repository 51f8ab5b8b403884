//! What each step at the table does to the view of the seat that makes it.
use crate::Kept;
use crate::views::View;
use atomic_table::{Join, Play, Split};

pub(crate) struct Draw;

impl<K: Kept> Play<Option<K>, View<K::Entry, K::Tag>> for Draw {
    ghost use Rattle.desk.specs.Plays.{drawn};

    ghost then = { drawn };
}

pub(crate) struct Look;

impl<K: Kept> Play<Option<K>, View<K::Entry, K::Tag>> for Look {
    ghost use Rattle.desk.specs.Plays.{looked};

    ghost then = { looked K.listed K.spare K.tag };
}

pub(crate) struct Read;

impl<K: Kept> Play<Option<K>, View<K::Entry, K::Tag>> for Read {
    ghost use Rattle.desk.specs.Plays.{read};

    ghost then = { read };
}

pub(crate) struct Count;

impl<K: Kept> Play<Option<K>, View<K::Entry, K::Tag>> for Count {
    ghost use Rattle.desk.specs.Plays.{counted};

    ghost then = { counted K.listed };
}

pub(crate) struct PassOn;

impl<K: Kept> Play<Option<K>, View<K::Entry, K::Tag>> for PassOn {
    ghost use Rattle.desk.specs.Plays.{passed_on};

    ghost then = { passed_on };
}

pub(crate) struct Learn;

impl<K: Kept> Play<Option<K>, View<K::Entry, K::Tag>> for Learn {
    ghost use Rattle.desk.specs.Plays.{learned};

    ghost then = { learned };
}

/// A seat with the first share, and the other seat keeps the rest.
pub(crate) struct HandOver;

impl<E, G> Split<View<E, G>> for HandOver {
    ghost use Rattle.desk.specs.Plays.{without_first, with_first};

    ghost left = { without_first };

    ghost right = { with_first };
}

/// A seat that has seen as much.
pub(crate) struct Note;

impl<E, G> Split<View<E, G>> for Note {
    ghost use Rattle.desk.specs.Plays.{note_of};

    ghost left = { λ view. view };

    ghost right = { note_of };
}

pub(crate) struct TakeIn;

impl<E, G> Join<View<E, G>> for TakeIn {
    ghost use Rattle.desk.specs.Plays.{taken_in};
    ghost use Rattle.desk.specs.Turns.{spent};

    ghost both = { taken_in };

    ghost spent = { spent };
}
