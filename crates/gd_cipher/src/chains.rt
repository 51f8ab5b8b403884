//! Cipher block chaining.
ghost use Rattle.std.specs.Prelude.{◌≡◌, ℕ, ◌+◌, ◌*◌, ◌%◌, ◌≤◌, List, ◌++◌, length, take, drop};
ghost use Rattle.gd_cipher.specs.Bytes.{AreBytes};
ghost use Rattle.gd_cipher.specs.Blocks.{xor_all};
ghost use Rattle.gd_cipher.specs.Ciphers.{cipher, decipher};
ghost use Rattle.gd_cipher.specs.Chains.{IsSealed, IsOpened};
ghost use Rattle.gd_cipher.specs.Words.{bytes_of};
ghost use Rattle.gd_cipher.specs.Private.RoundKeys.{AreRoundKeys, AreOpeningKeys};

use crate::Key128;
use crate::blocks::{Columns, decrypt, encrypt, read, sum, write};

/// Encrypts a text of whole blocks in place, chained from an IV (SP 800-38A section 6.2).
pub fn cbc_seal(key: &Key128, iv: &[u8; 16], text: &mut [u8])
    requires { length text.old % 16 ≡ 0 }
    ensures sealed { IsSealed key.now iv.now text.old text.new }
    ensures key { AreBytes 16 key.now }
{
    seal(key.words(), 10, iv, text);
}

/// Decrypts a text of whole blocks in place (SP 800-38A section 6.2).
pub fn cbc_open(key: &Key128, iv: &[u8; 16], text: &mut [u8])
    requires { length text.old % 16 ≡ 0 }
    ensures opened { IsOpened key.now iv.now text.old text.new }
    ensures key { AreBytes 16 key.now }
{
    open(&key.opening_words(), 10, iv, text);
}

/// Encrypts a text under the words of the round keys of a key of any size.
#[inline(never)]
fn seal(words: &[u32], rounds: usize, iv: &[u8; 16], text: &mut [u8])
    requires rounds { 2 ≤ rounds }
    requires few { rounds ≤ 14 }
    requires len { length words.now ≡ 4 * (rounds + 1) }
    requires whole { length text.old % 16 ≡ 0 }
    ensures { (key : List ℕ) → AreRoundKeys key rounds words.now → IsSealed key iv.now text.old text.new }
{
    let mut before = read(iv);
    for i in 0..text.len() / 16 {
        let sealed = seal_first(words, rounds, before, &mut text[16 * i..]);
        before = sealed;
    }
}

/// Decrypts a text under the words of the keys for the equivalent inverse cipher, for a key of any size.
#[inline(never)]
fn open(words: &[u32], rounds: usize, iv: &[u8; 16], text: &mut [u8])
    requires rounds { 2 ≤ rounds }
    requires few { rounds ≤ 14 }
    requires len { length words.now ≡ 4 * (rounds + 1) }
    requires whole { length text.old % 16 ≡ 0 }
    ensures { (key : List ℕ) → AreOpeningKeys key rounds words.now → IsOpened key iv.now text.old text.new }
{
    let mut before = read(iv);
    for i in 0..text.len() / 16 {
        let sealed = open_first(words, rounds, before, &mut text[16 * i..]);
        before = sealed;
    }
}

/// Encrypts the first block of a text, chained with the sealed block before it, and answers it as the one before the next.
#[inline(always)]
fn seal_first(words: &[u32], rounds: usize, before: Columns, text: &mut [u8]) -> Columns
    requires rounds { 2 ≤ rounds }
    requires few { rounds ≤ 14 }
    requires len { length words.now ≡ 4 * (rounds + 1) }
    requires block { 16 ≤ length text.old }
    ensures sealed { (key : List ℕ) → AreRoundKeys key rounds words.now →
        bytes_of result ≡ cipher key (xor_all (take 16 text.old) (bytes_of before)) }
    ensures text { text.new ≡ bytes_of result ++ drop 16 text.old }
{
    let block = text.first_chunk_mut().unwrap();
    let sealed = encrypt(words, rounds, sum(read(block), before));
    write(sealed, block);
    sealed
}

/// Decrypts the first block of a text, chained with the sealed block before it, and answers it, sealed, as the one before the next.
#[inline(always)]
fn open_first(words: &[u32], rounds: usize, before: Columns, text: &mut [u8]) -> Columns
    requires rounds { 2 ≤ rounds }
    requires few { rounds ≤ 14 }
    requires len { length words.now ≡ 4 * (rounds + 1) }
    requires block { 16 ≤ length text.old }
    ensures sealed { bytes_of result ≡ take 16 text.old }
    ensures text { (key : List ℕ) → AreOpeningKeys key rounds words.now →
        text.new ≡ xor_all (decipher key (take 16 text.old)) (bytes_of before) ++ drop 16 text.old }
{
    let block = text.first_chunk_mut().unwrap();
    let sealed = read(block);
    write(sum(decrypt(words, rounds, sealed), before), block);
    sealed
}
