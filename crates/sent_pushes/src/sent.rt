//! Which entry sent which push.
ghost use Rattle.std.specs.Prelude.{◌≡◌, ◌+◌, ◌≤◌, [], OnOk};
ghost use Rattle.sent_pushes.specs.Notes.{Rises, next_after, noted, place_of};

use crate::notes::{self, Note};
use group_terms::NoMemory;
use std::alloc::Global;
use std::marker::Model;

/// For each sequence number, the place of the entry that sent the last push of it.
///
/// Contracts see the notes as `items`, by rising number, and beside them `spare`, how many more there is room for.
#[derive(Drop)]
pub struct SentPushes {
    notes: Vec<Note>,
}

impl Model for SentPushes {
    ghost use Rattle.std.specs.Prelude.{◌-◌, vec_len, vec_capacity};
    ghost use Rattle.group_terms.specs.Logs.{Recorded};
    ghost use Rattle.sent_pushes.specs.declared.notes.Note.{Note};
    ghost use Rattle.sent_pushes.specs.Notes.{Rises};

    ghost Value = { Recorded Note };

    ghost view = { λ sent. record { items = sent.notes.items; spare = vec_capacity sent.notes - vec_len sent.notes } };

    ghost invariant = { λ sent. Rises sent.notes.items };
}

impl SentPushes {
    /// No push was sent. It takes no memory.
    pub fn new(alloc: Global) -> Self
        ensures { result.items ≡ [] }
    {
        SentPushes {
            notes: Vec::new(alloc),
        }
    }

    /// Makes room for at least `n` more notes.
    pub fn reserve(&mut self, n: u64) -> Result<(), NoMemory>
        ensures items { self.new.items ≡ self.old.items }
        ensures spare { OnOk result (n ≤ self.new.spare) }
    {
        self.notes.reserve(n as usize)?;
        Ok(())
    }

    /// Notes down which entry sent a push, for which there must be room. A later push of the same number takes the place of the one before it. It
    /// takes no memory.
    pub fn note(&mut self, number: u32, place: usize)
        requires { 1 ≤ self.old.spare }
        ensures items { self.new.items ≡ noted self.old.items number place }
        ensures spare { self.old.spare ≤ self.new.spare + 1 }
    {
        notes::put(&mut self.notes, Note { number, place });
    }

    /// The place of the entry that sent the last push of this number; `None` exactly where none was noted.
    pub fn find(&self, number: u32) -> Option<usize>
        ensures place { result ≡ place_of self.now.items number }
        ensures rises { Rises self.now.items }
    {
        notes::find(&self.notes, number)
    }

    /// The least number greater than this one of which a push was noted; `None` exactly where there is none.
    pub fn next_after(&self, number: u32) -> Option<u32>
        ensures next { result ≡ next_after self.now.items number }
        ensures rises { Rises self.now.items }
    {
        notes::next_after(&self.notes, number)
    }
}
