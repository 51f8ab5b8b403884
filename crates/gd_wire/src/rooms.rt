//! Room for the octets of a text.
ghost use Rattle.std.specs.Prelude.{◌≡◌, ◌≤◌, [], length, IfOk};
ghost use Rattle.std.specs.Borrow.{sem};

use group_terms::NoMemory;
use std::alloc::Global;
use std::marker::Model;

/// Room that is reserved once, into which texts are put one after the other. Putting one takes no memory, and copies it once.
///
/// Contracts see its octets, and how many there is `room` for.
#[derive(Drop)]
pub struct Room {
    octets: Vec<u8>,
}

impl Model for Room {
    ghost use Rattle.std.specs.Prelude.{vec_capacity};
    ghost use Rattle.gd_wire.specs.RoomViews.{Roomy};

    ghost Value = { Roomy };

    ghost view = { λ room. record { octets = room.octets.items; room = vec_capacity room.octets } };
}

impl Room {
    ghost use Rattle.gd_wire.specs.Rooms.{lends_octets};

    /// Room for at least `most` octets, without any yet.
    pub fn new(alloc: Global, most: usize) -> Result<Self, NoMemory>
        ensures octets { IfOk result (λ room. room.octets ≡ []) }
        ensures room { IfOk result (λ room. most ≤ room.room) }
    {
        Ok(Room {
            octets: Vec::with_capacity(alloc, most)?,
        })
    }

    /// Replaces the octets by these.
    pub fn fill(&mut self, octets: &[u8])
        requires { length octets.now ≤ self.old.room }
        ensures octets { self.new.octets ≡ octets.now }
        ensures room { self.old.room ≤ self.new.room }
    {
        self.octets.clear();
        self.octets.extend_from_slice(octets).unwrap();
    }

    pub fn text(&self) -> &[u8]
        ensures { result.now ≡ self.now.octets }
    {
        self.octets.as_slice()
    }

    /// The octets, to be changed in place.
    pub fn text_mut(&mut self) -> &mut [u8]
        ensures* writes_back { sem 𝓛 (lends_octets self.entry result) }
        ensures value { result.now ≡ self.old.octets }
    {
        self.octets.as_mut_slice()
    }

    /// Takes all octets off.
    pub fn clear(&mut self)
        ensures octets { self.new.octets ≡ [] }
        ensures room { self.new.room ≡ self.old.room }
    {
        self.octets.clear();
    }
}
