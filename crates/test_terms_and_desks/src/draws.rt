//! Draws of a seed.
use gd_edges::{ChaChaDraws, Draws};

/// Words of the key streams in RFC 8439, appendix A.1.
#[test]
fn draws_of_a_seed_are_words_of_its_key_stream(rt: HostRuntime) {
    let zeros = is_drawn(0, 0, 0, 0xade0b876_903df1a0_e56a5d40_28bd8653)
        & is_drawn(0, 0, 1, 0xb819d2bd_1aed8da0_ccef36a8_c70d778b)
        & is_drawn(0, 1, 4, 0x2452eb3a_9249f8ec_8d829d9b_ddd4ceb1);
    let seed = 0x00ff000000000000;
    assert!(rt; zeros & is_drawn(seed, 0, 8, 0xfb4dd572_4bc42ef1_df922636_327f1394));
}

/// Whether this is the block of a seed and a stream at this place.
fn is_drawn(seed: u64, stream: u8, place: u64, want: u128) -> bool {
    let mut draws = ChaChaDraws::new(seed, stream);
    pass(&mut draws, place);
    (draws.place() == place) & (u128::from_be_bytes(draws.draw()) == want)
}

/// Draws blocks and drops them.
pub(crate) fn pass<D: Draws>(draws: &mut D, blocks: u64) {
    for _ in 0..blocks {
        draws.draw();
    }
}
