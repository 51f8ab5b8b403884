//! Lists with reserved room, so that adding an item cannot fail.
ghost use Rattle.std.specs.Prelude.{◌≡◌, ◌+◌, ◌<◌, ◌≤◌, [], ◌∷◌, ◌++◌, OnOk};
ghost use Rattle.group_terms.specs.Logs.{Recorded};

use crate::{List, NoMemory};
use std::marker::Model;

/// A list whose room is reserved before something is done, so that noting it down afterwards cannot fail.
///
/// Contracts see its items beside `spare`, how many more it has room for.
#[derive(Drop)]
pub struct Log<T> {
    items: Vec<T>,
}

impl<T> Model for Log<T> {
    ghost use Rattle.std.specs.Prelude.{◌-◌, vec_len, vec_capacity};
    ghost use Rattle.group_terms.specs.Logs.{Recorded};

    ghost Value = { Recorded T };

    ghost view = { λ log. record { items = log.items.items; spare = vec_capacity log.items - vec_len log.items } };
}

impl<T> Log<T> {
    /// A log that begins with these items. It takes no memory.
    pub fn of(items: List<T>) -> Self
        ensures { result.items ≡ items }
    {
        Log {
            items: items.into_vec(),
        }
    }

    /// Makes room for at least `n` more items.
    pub fn reserve(&mut self, n: u64) -> Result<(), NoMemory>
        ensures items { self.new.items ≡ self.old.items }
        ensures spare { OnOk result (n ≤ self.new.spare) }
    {
        self.items.reserve(n as usize)?;
        Ok(())
    }

    /// Notes an item down, for which there must be room. It takes no memory.
    pub fn add(&mut self, item: T)
        requires { 1 ≤ self.old.spare }
        ensures items { self.new.items ≡ self.old.items ++ item ∷ [] }
        ensures spare { self.new.spare + 1 ≡ self.old.spare }
    {
        self.items.push_reserved(item);
    }

    pub fn items(&self) -> &[T]
        ensures { result.now ≡ self.now.items }
    {
        self.items.as_slice()
    }

    /// The items as a list. It takes no memory.
    pub fn into_list(self) -> List<T>
        ensures { result ≡ self.items }
    {
        let Log { items } = self;
        List::from_vec(items)
    }
}
