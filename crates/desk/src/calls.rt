//! Which entries of the history each pass made, as contracts see it once the desk is closed.
use crate::views::View;
use atomic_table::Badge;
use std::collections::LinkedList;
use std::marker::Model;

/// An entry, and its place in the history since the desk's making. No value of it is made.
pub struct Call<E> {
    pub place: u64,
    pub entry: E,
}

/// What is known of the calls of all passes of a desk that was closed: a list for each pass. It has no bytes.
pub struct Calls<E, G> {
    pub(crate) note: Badge<View<E, G>>,
}

impl<E, G> Model for Calls<E, G> {
    ghost use Rattle.std.specs.Prelude.{List};
    ghost use Rattle.desk.specs.declared.calls.Call.{Call};

    ghost Value = { List (List (Call E)) };

    ghost use Rattle.desk.specs.Views.{calls_noted};

    ghost view = { λ calls. calls_noted calls.note.views };
}

impl<E, G> Drop for Calls<E, G> {
    fn drop(self) {
        let Calls { note: _ } = self;
    }
}
