//! The key expansion.
ghost use Rattle.std.specs.Prelude.{◌≡◌, ℕ, ◌+◌, ◌*◌, ◌≤◌, length, take};
ghost use Rattle.gd_cipher.specs.Fields.{times_x};
ghost use Rattle.gd_cipher.specs.Schedules.{schedule};
ghost use Rattle.gd_cipher.specs.Words.{bytes_of};
ghost use Rattle.gd_cipher.specs.Private.Equivalents.{AreEquivalentKeys};

use crate::columns::{substituted_word, unmixed_column};

/// Writes the words after the first `key_words` of a key's schedule (FIPS 197 section 5.2).
pub(crate) fn expand(words: &mut [u32], key_words: usize)
    requires key { 4 ≤ key_words }
    requires few { key_words ≤ 8 }
    requires len { length words.old ≡ 4 * (key_words + 7) }
    ensures { bytes_of words.new ≡ schedule (bytes_of (take key_words words.old)) }
{
    let mut power = 1;
    for i in key_words..words.len() {
        let mut word = words[i - 1];
        if i % key_words == 0 {
            word = substituted_word(word.rotate_left(8)) ^ (u32::from(power) << 24);
            power = times_x(power);
        } else if key_words > 6 && i % key_words == 4 {
            word = substituted_word(word);
        }
        words[i] = words[i - key_words] ^ word;
    }
}

/// Makes the words of all round keys those for the equivalent inverse cipher (FIPS 197 section 5.3.5): between the first key and the
/// last, the mixing of each column is undone.
pub(crate) fn unmix(words: &mut [u32])
    requires { 8 ≤ length words.old }
    ensures { (rounds : ℕ) → length words.old ≡ 4 * (rounds + 1) → AreEquivalentKeys rounds (bytes_of words.old) (bytes_of words.new) }
{
    for i in 4..words.len() - 4 {
        words[i] = unmixed_column(words[i]);
    }
}

/// x times a polynomial.
fn times_x(byte: u8) -> u8
    ensures { result ≡ times_x byte }
{
    if byte < 128 {
        byte << 1
    } else {
        (byte << 1) ^ 0x1b
    }
}
