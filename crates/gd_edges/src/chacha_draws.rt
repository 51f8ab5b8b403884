//! Draws from the key stream of ChaCha20.
ghost use Rattle.std.specs.Prelude.{◌≡◌, ◌+◌, ◌*◌, ◌%◌, ◌^◌, ◌<◌};
ghost use Rattle.gd_edges.specs.Draws.{stream_block, stream_key, stream_seed, stream_word, stream_words};

use crate::Draws;
use arrayvec::ArrayVec;
use rand_chacha::ChaCha20Rng;
use rand_core::SeedableRng;
use rand_core::utils::NextWord;
use std::marker::Model;

/// Blocks of the key stream of ChaCha20 (RFC 8439 section 2.4), each of four words with the high octet first. Who knows the seed knows them all.
#[derive(Drop)]
pub struct ChaChaDraws {
    generator: ChaCha20Rng,
    place: u64,
}

impl Model for ChaChaDraws {
    ghost use Rattle.std.specs.Prelude.{◌≡◌, ◌*◌};
    ghost use Rattle.gd_edges.specs.Draws.{KeyStream};

    ghost Value = { KeyStream };

    ghost view = { λ draws. record { key = draws.generator.key; place = draws.place } };

    ghost invariant = { λ draws. (draws.generator.stream ≡ 0) × (draws.generator.word_pos ≡ 4 * draws.place) };
}

impl ChaChaDraws {
    /// Draws of a seed. Streams of one seed differ from each other.
    pub fn new(seed: u64, stream: u8) -> Self
        ensures { result ≡ record { key = stream_key seed stream; place = 0 } }
    {
        ChaChaDraws {
            generator: ChaCha20Rng::from_seed(seed_octets(seed, stream)),
            place: 0,
        }
    }
}

impl Draws for ChaChaDraws {
    ghost block_at = { λ draws k. stream_block draws.key k };

    ghost place_of = { λ draws. draws.place };

    fn draw(&mut self) -> [u8; 16]
        ensures block { result ≡ stream_block self.old.key self.old.place }
        ensures after { self.new ≡ record self.old { place = (self.old.place + 1) % 2 ^ 64 } }
    {
        let block = next_block(&mut self.generator);
        self.place = self.place.wrapping_add(1);
        if self.place == 0 {
            self.generator.set_word_pos(0);
        }
        block
    }

    fn place(&self) -> u64 {
        self.place
    }
}

/// The octets of the cipher's key: the seed, zeros, and the stream.
fn seed_octets(seed: u64, stream: u8) -> [u8; 32]
    ensures { result ≡ stream_seed seed stream }
{
    let mut octets = ArrayVec::<u8, 32>::new();
    octets.try_extend_from_slice(&seed.to_be_bytes()).unwrap();
    octets.try_extend_from_slice(&[0; 23]).unwrap();
    octets.push(stream);
    octets.into_inner().unwrap()
}

/// The next four words.
fn next_block(generator: &mut ChaCha20Rng) -> [u8; 16]
    requires stream { generator.old.stream ≡ 0 }
    requires within { generator.old.word_pos + 4 < 2 ^ 68 }
    ensures block { result ≡ stream_words generator.old.key generator.old.word_pos }
    ensures after { generator.new ≡ record generator.old { word_pos = generator.old.word_pos + 4 } }
{
    let mut block = ArrayVec::<u8, 16>::new();
    block.try_extend_from_slice(&next_word(generator)).unwrap();
    block.try_extend_from_slice(&next_word(generator)).unwrap();
    block.try_extend_from_slice(&next_word(generator)).unwrap();
    block.try_extend_from_slice(&next_word(generator)).unwrap();
    block.into_inner().unwrap()
}

/// The next word.
#[tactic(auto, unfolding(crate::specs::Draws::stream_word))]
fn next_word(generator: &mut ChaCha20Rng) -> [u8; 4]
    requires stream { generator.old.stream ≡ 0 }
    requires within { generator.old.word_pos + 1 < 2 ^ 68 }
    ensures word { result ≡ stream_word generator.old.key generator.old.word_pos }
    ensures after { generator.new ≡ record generator.old { word_pos = generator.old.word_pos + 1 } }
{
    generator.next_word().to_be_bytes()
}
