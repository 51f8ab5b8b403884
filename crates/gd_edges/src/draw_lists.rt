//! Draws from a list, for tests.
ghost use Rattle.std.specs.Prelude.{◌≡◌, ◌+◌, ◌%◌, ◌^◌, ◌<◌, length};
ghost use Rattle.gd_edges.specs.Draws.{listed_block};

use crate::Draws;
use group_terms::List;
use std::marker::Model;

/// Blocks that are listed, which come again and again: for tests, in which the order of draws is to be seen.
#[derive(Drop)]
pub struct DrawList {
    blocks: List<[u8; 16]>,
    place: u64,
}

impl Model for DrawList {
    ghost use Rattle.std.specs.Prelude.{◌<◌, length};
    ghost use Rattle.gd_edges.specs.Draws.{ListedBlocks};

    ghost Value = { ListedBlocks };

    ghost view = { λ draws. record { blocks = draws.blocks; place = draws.place } };

    ghost invariant = { λ draws. 0 < length draws.blocks };
}

impl DrawList {
    /// Draws of these blocks, from the first one on. There has to be one.
    pub fn new(blocks: List<[u8; 16]>) -> Self
        requires { 0 < length blocks }
        ensures { result ≡ record { blocks = blocks; place = 0 } }
    {
        DrawList { blocks, place: 0 }
    }
}

impl Draws for DrawList {
    ghost block_at = { λ draws k. listed_block draws.blocks k };

    ghost place_of = { λ draws. draws.place };

    fn draw(&mut self) -> [u8; 16]
        ensures block { result ≡ listed_block self.old.blocks self.old.place }
        ensures after { self.new ≡ record self.old { place = (self.old.place + 1) % 2 ^ 64 } }
    {
        let index = self.place % self.blocks.len() as u64;
        self.place = self.place.wrapping_add(1);
        self.blocks.as_slice()[index as usize]
    }

    fn place(&self) -> u64 {
        self.place
    }
}
