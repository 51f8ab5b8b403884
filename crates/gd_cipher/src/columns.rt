//! Columns of a state as words of 32 bits. The byte of the first row is the highest.
ghost use Rattle.std.specs.Prelude.{◌≡◌, ℕ, map};
ghost use Rattle.std.specs.Int.{w32, to_be_bytes};
ghost use Rattle.gd_cipher.specs.Fields.{substitute};
ghost use Rattle.gd_cipher.specs.Blocks.{xor_all, mix_column};
ghost use Rattle.gd_cipher.specs.Words.{byte_in};
ghost use Rattle.gd_cipher.specs.Private.Tables.{AreTables};

use crate::tables::{Tables, substituted, unmixed};

/// A column of which each row comes from one of these, changed and mixed as the tables say, and then a key added to it.
#[inline(always)]
pub(crate) fn column(
    tables: &Tables,
    first: u32,
    second: u32,
    third: u32,
    fourth: u32,
    key: u32,
) -> u32
    ensures { (rule : ℕ → ℕ) → (p q r s : ℕ) → AreTables rule p q r s tables.now → to_be_bytes w32 result ≡ xor_all
        (mix_column p q r s (rule (byte_in first 0)) (rule (byte_in second 1)) (rule (byte_in third 2)) (rule (byte_in fourth 3)))
        (to_be_bytes w32 key) }
{
    let [a, _, _, _] = first.to_be_bytes();
    let [_, b, _, _] = second.to_be_bytes();
    let [_, _, c, _] = third.to_be_bytes();
    let [_, _, _, d] = fourth.to_be_bytes();
    ((tables[3][usize::from(d)] ^ key) ^ tables[0][usize::from(a)])
        ^ (tables[2][usize::from(c)] ^ tables[1][usize::from(b)])
}

/// Each byte of a word substituted.
pub(crate) fn substituted_word(word: u32) -> u32
    ensures { to_be_bytes w32 result ≡ map substitute (to_be_bytes w32 word) }
{
    column(substituted(), word, word, word, word, 0)
}

/// A column before it was mixed.
pub(crate) fn unmixed_column(word: u32) -> u32
    ensures { to_be_bytes w32 result ≡ mix_column 0x0e 0x0b 0x0d 0x09
        (byte_in word 0) (byte_in word 1) (byte_in word 2) (byte_in word 3) }
{
    let word = substituted_word(word);
    column(unmixed(), word, word, word, word, 0)
}
