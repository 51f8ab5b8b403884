//! Room in which pushes are opened.
ghost use Rattle.std.specs.Prelude.{◌≡◌, [], IfOk};

use crate::texts::OpenTexts;
use group_terms::NoMemory;
use std::alloc::Global;
use std::marker::Model;

/// Room in which pushes are opened one after the other. It is reserved once, and serves for all stores of a process.
#[derive(Drop)]
pub struct Room {
    pub(crate) texts: OpenTexts,
    /// Where the body of the key download is.
    pub(crate) start: usize,
    pub(crate) size: usize,
}

impl Model for Room {
    ghost use Rattle.std.specs.Prelude.{◌≤◌, ◌+◌, ℕ, List, length, take, drop};

    ghost Value = { List ℕ };

    ghost view = { λ room. take room.size (drop room.start room.texts) };

    ghost invariant = { λ room. room.start + room.size ≤ length room.texts };
}

impl Room {
    /// Room for 64 datagrams of the largest size and their texts, 8.4 MB, with no push in it.
    pub fn new(alloc: Global) -> Result<Self, NoMemory>
        ensures { IfOk result (λ room. room ≡ []) }
    {
        Ok(Room {
            texts: OpenTexts::new(alloc)?,
            start: 0,
            size: 0,
        })
    }

    /// The body of the key download of the push that was opened last, if it was taken; the span of that push counts its places in it. Else
    /// no octets.
    pub fn text(&self) -> &[u8]
        ensures { result.now ≡ self.now }
    {
        &self.texts.text()[self.start..][..self.size]
    }
}
