//! The pairs that a board shows, as one word.
ghost use Rattle.std.specs.Prelude.{◌≡◌};
ghost use Rattle.epoch_board.specs.Private.Rule.{word_of, pair_of};

/// What a board shows: an epoch, and the sequence number after its batch. Before the first pair is published, both are 0.
#[derive(Clone, Copy, PartialEq, Eq, PartialOrd, Ord)]
pub struct Seen {
    pub epoch: u32,
    pub sequence: u32,
}

/// A pair in one word: the epoch in its upper half, the sequence number in its lower.
pub(crate) fn to_word(pair: Seen) -> u64
    ensures word { result ≡ word_of pair }
    ensures inverse { pair_of result ≡ pair }
{
    (u64::from(pair.epoch) << 32) + u64::from(pair.sequence)
}

/// The pair in a word.
pub(crate) fn from_word(word: u64) -> Seen
    ensures pair { result ≡ pair_of word }
    ensures inverse { word_of result ≡ word }
{
    Seen {
        epoch: (word >> 32) as u32,
        sequence: (word & 0xffff_ffff) as u32,
    }
}
