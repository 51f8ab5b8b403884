//! A block through the rounds.
ghost use Rattle.std.specs.Prelude.{◌≡◌, ℕ, ◌+◌, ◌*◌, ◌≤◌, List, length, map};
ghost use Rattle.gd_cipher.specs.Blocks.{xor_all, mix_by, shift_rows, undo_shift_rows};
ghost use Rattle.gd_cipher.specs.Ciphers.{add_round_key, cipher, decipher};
ghost use Rattle.gd_cipher.specs.Words.{bytes_of};
ghost use Rattle.gd_cipher.specs.Private.RoundKeys.{AreRoundKeys, AreOpeningKeys};
ghost use Rattle.gd_cipher.specs.Private.Tables.{AreTables};

use crate::columns::column;
use crate::tables::{Tables, mixed, substituted, unmixed, unsubstituted};
use byteorder::{BigEndian, ByteOrder};

/// A state: its four columns.
pub(crate) type Columns = [u32; 4];

/// Encrypts a state with the words of all round keys (FIPS 197 section 5.1).
#[inline(always)]
pub(crate) fn encrypt(words: &[u32], rounds: usize, state: Columns) -> Columns
    requires rounds { 2 ≤ rounds }
    requires few { rounds ≤ 14 }
    requires len { length words.now ≡ 4 * (rounds + 1) }
    ensures { (key : List ℕ) → AreRoundKeys key rounds words.now → bytes_of result ≡ cipher key (bytes_of state) }
{
    let first = with_key(words, 0, state);
    let mut state = forward(mixed(), words, 1, first);
    for round in 2..rounds {
        let next = forward(mixed(), words, round, state);
        state = next;
    }
    forward(substituted(), words, rounds, state)
}

/// Decrypts a state by the equivalent inverse cipher, with the words of the keys for it (FIPS 197 section 5.3.5).
#[inline(always)]
pub(crate) fn decrypt(words: &[u32], rounds: usize, state: Columns) -> Columns
    requires rounds { 2 ≤ rounds }
    requires few { rounds ≤ 14 }
    requires len { length words.now ≡ 4 * (rounds + 1) }
    ensures { (key : List ℕ) → AreOpeningKeys key rounds words.now → bytes_of result ≡ decipher key (bytes_of state) }
{
    let first = with_key(words, rounds, state);
    let mut state = backward(unmixed(), words, rounds - 1, first);
    for round in (1..rounds - 1).rev() {
        let next = backward(unmixed(), words, round, state);
        state = next;
    }
    backward(unsubstituted(), words, 0, state)
}

/// Encrypts a block with the words of all round keys.
pub(crate) fn encrypt_block(words: &[u32], rounds: usize, block: &mut [u8; 16])
    requires rounds { 2 ≤ rounds }
    requires few { rounds ≤ 14 }
    requires len { length words.now ≡ 4 * (rounds + 1) }
    ensures { (key : List ℕ) → AreRoundKeys key rounds words.now → block.new ≡ cipher key block.old }
{
    let state = encrypt(words, rounds, read(block));
    write(state, block);
}

/// Decrypts a block with the words of the keys for the equivalent inverse cipher.
pub(crate) fn decrypt_block(words: &[u32], rounds: usize, block: &mut [u8; 16])
    requires rounds { 2 ≤ rounds }
    requires few { rounds ≤ 14 }
    requires len { length words.now ≡ 4 * (rounds + 1) }
    ensures { (key : List ℕ) → AreOpeningKeys key rounds words.now → block.new ≡ decipher key block.old }
{
    let state = decrypt(words, rounds, read(block));
    write(state, block);
}

/// The columns of a block.
#[inline(always)]
pub(crate) fn read(block: &[u8; 16]) -> Columns
    ensures { bytes_of result ≡ block.now }
{
    let mut columns = [0; 4];
    BigEndian::read_u32_into(block, &mut columns);
    columns
}

/// The block of these columns.
#[inline(always)]
pub(crate) fn write(columns: Columns, block: &mut [u8; 16])
    ensures { block.new ≡ bytes_of columns }
{
    BigEndian::write_u32_into(&columns, block);
}

/// Two states added, column by column.
#[inline(always)]
pub(crate) fn sum(these: Columns, those: Columns) -> Columns
    ensures { bytes_of result ≡ xor_all (bytes_of these) (bytes_of those) }
{
    let [a, b, c, d] = these;
    let [e, f, g, h] = those;
    [a ^ e, b ^ f, c ^ g, d ^ h]
}

/// The key of a round added.
#[inline(always)]
fn with_key(words: &[u32], round: usize, state: Columns) -> Columns
    requires { 4 * (round + 1) ≤ length words.now }
    ensures { bytes_of result ≡ add_round_key (bytes_of words.now) round (bytes_of state) }
{
    let [a, b, c, d] = state;
    let at = 4 * round;
    [
        a ^ words[at],
        b ^ words[at + 1],
        c ^ words[at + 2],
        d ^ words[at + 3],
    ]
}

/// A round of the cipher: bytes changed, rows shifted, columns mixed as the tables say, and the key of the round added.
#[inline(always)]
fn forward(tables: &Tables, words: &[u32], round: usize, state: Columns) -> Columns
    requires { 4 * (round + 1) ≤ length words.now }
    ensures { (rule : ℕ → ℕ) → (p q r s : ℕ) → AreTables rule p q r s tables.now → bytes_of result ≡
        add_round_key (bytes_of words.now) round (mix_by p q r s (shift_rows (map rule (bytes_of state)))) }
{
    let [a, b, c, d] = state;
    let at = 4 * round;
    [
        column(tables, a, b, c, d, words[at]),
        column(tables, b, c, d, a, words[at + 1]),
        column(tables, c, d, a, b, words[at + 2]),
        column(tables, d, a, b, c, words[at + 3]),
    ]
}

/// The same with the rows shifted back, for a round of the equivalent inverse cipher.
#[inline(always)]
fn backward(tables: &Tables, words: &[u32], round: usize, state: Columns) -> Columns
    requires { 4 * (round + 1) ≤ length words.now }
    ensures { (rule : ℕ → ℕ) → (p q r s : ℕ) → AreTables rule p q r s tables.now → bytes_of result ≡
        add_round_key (bytes_of words.now) round (mix_by p q r s (undo_shift_rows (map rule (bytes_of state)))) }
{
    let [a, b, c, d] = state;
    let at = 4 * round;
    [
        column(tables, a, d, c, b, words[at]),
        column(tables, b, a, d, c, words[at + 1]),
        column(tables, c, b, a, d, words[at + 2]),
        column(tables, d, c, b, a, words[at + 3]),
    ]
}
