//! The keys of a member's path.
ghost use Rattle.std.specs.Prelude.{◌≡◌, ◌<◌, ◌≤◌, [], ◌∷◌, ◌++◌, length};

use crate::{LkhId, NodeValue, TrafficValue};
use arrayvec::ArrayVec;
use std::marker::Model;

/// How many keys a path has at the most.
pub const LONGEST_PATH: usize = 16;

/// The key of a position, and the epoch in which it was made.
#[derive(Clone, Copy, Default, PartialEq, Eq)]
pub struct PathKey {
    pub id: LkhId,
    pub made: u32,
    pub value: NodeValue,
}

/// Keys from a leaf up to the root (RFC 2627 section 5.4); at most 16.
#[derive(Drop)]
pub struct Path {
    keys: ArrayVec<PathKey, LONGEST_PATH>,
}

impl Model for Path {
    ghost use Rattle.std.specs.Prelude.{List};
    ghost use Rattle.group_terms.specs.declared.paths.PathKey.{PathKey};

    ghost Value = { List PathKey };

    ghost view = { λ path. path.keys.items };
}

impl Path {
    /// The path without a key.
    pub fn new() -> Self
        ensures { result ≡ [] }
    {
        Path {
            keys: ArrayVec::new(),
        }
    }

    /// Puts a key after the last one: in a path that of the position above.
    pub fn push(&mut self, key: PathKey)
        requires { length self.old < LONGEST_PATH }
        ensures { self.new ≡ self.old ++ key ∷ [] }
    {
        self.keys.push(key);
    }

    /// The keys.
    pub fn keys(&self) -> &[PathKey]
        ensures keys { result.now ≡ self.now }
        ensures few { length self.now ≤ LONGEST_PATH }
    {
        self.keys.as_slice()
    }
}

/// What a member learns when it registers: the epoch, which is also that of the root's key, the last sequence number that was used, the SPI
/// of rekey datagrams, the keys of its path, and the key of the traffic.
#[derive(Drop)]
pub struct Keyed {
    pub epoch: u32,
    pub sequence: u32,
    pub spi: [u8; 16],
    pub path: Path,
    pub traffic: TrafficValue,
}
