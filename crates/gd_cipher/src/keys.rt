//! Keys with their schedules.
ghost use Rattle.std.specs.Prelude.{◌≡◌};
ghost use Rattle.gd_cipher.specs.Bytes.{AreBytes};
ghost use Rattle.gd_cipher.specs.Ciphers.{cipher, decipher};
ghost use Rattle.gd_cipher.specs.Private.RoundKeys.{AreRoundKeys, AreOpeningKeys};

use crate::blocks::{decrypt_block, encrypt_block};
use crate::schedules::{expand, unmix};
use byteorder::{BigEndian, ByteOrder};
use std::fmt;
use std::marker::Model;

/// A key of 128 bits, with the keys of its ten rounds. Contracts see its 16 bytes.
#[derive(Drop)]
pub struct Key128 {
    words: [u32; 44],
}

impl fmt::Debug for Key128 {
    ghost use Rattle.std.specs.Prelude.{Some, codes};

    ghost debug_output = { λ _. Some (codes "Key128 { .. }") };

    fn fmt<W: fmt::Write>(&self, f: &mut fmt::Formatter<W>) -> fmt::Result {
        f.write_str("Key128 { .. }")
    }
}

impl Model for Key128 {
    ghost use Rattle.std.specs.Prelude.{◌≡◌, ℕ, List, take};
    ghost use Rattle.gd_cipher.specs.Schedules.{schedule};
    ghost use Rattle.gd_cipher.specs.Words.{bytes_of};

    ghost Value = { List ℕ };

    ghost view = { λ key. take 16 (bytes_of key.words) };

    ghost invariant = { λ key. bytes_of key.words ≡ schedule (take 16 (bytes_of key.words)) };
}

impl Key128 {
    /// Expands a key, once (FIPS 197 section 5.2).
    pub fn new(key: [u8; 16]) -> Self
        ensures { result ≡ key }
    {
        let mut words = [0; 44];
        BigEndian::read_u32_into(&key, &mut words[..4]);
        expand(&mut words, 4);
        Key128 { words }
    }

    /// Encrypts a block in place (FIPS 197 section 5.1).
    pub fn encrypt_block(&self, block: &mut [u8; 16])
        ensures block { block.new ≡ cipher self.now block.old }
        ensures key { AreBytes 16 self.now }
    {
        encrypt_block(self.words(), 10, block);
    }

    /// Decrypts a block in place (FIPS 197 section 5.3).
    pub fn decrypt_block(&self, block: &mut [u8; 16])
        ensures block { block.new ≡ decipher self.now block.old }
        ensures key { AreBytes 16 self.now }
    {
        decrypt_block(&self.opening_words(), 10, block);
    }

    /// The words of the round keys.
    #[inline]
    pub(crate) fn words(&self) -> &[u32; 44]
        ensures words { AreRoundKeys self.now 10 result.now }
        ensures key { AreBytes 16 self.now }
    {
        &self.words
    }

    /// The words of the keys for the equivalent inverse cipher.
    #[inline]
    pub(crate) fn opening_words(&self) -> [u32; 44]
        ensures words { AreOpeningKeys self.now 10 result }
        ensures key { AreBytes 16 self.now }
    {
        let mut words = self.words;
        unmix(&mut words);
        words
    }
}

/// A key of 256 bits, with the keys of its fourteen rounds. Contracts see its 32 bytes.
#[derive(Drop)]
pub struct Key256 {
    words: [u32; 60],
}

impl fmt::Debug for Key256 {
    ghost use Rattle.std.specs.Prelude.{Some, codes};

    ghost debug_output = { λ _. Some (codes "Key256 { .. }") };

    fn fmt<W: fmt::Write>(&self, f: &mut fmt::Formatter<W>) -> fmt::Result {
        f.write_str("Key256 { .. }")
    }
}

impl Model for Key256 {
    ghost use Rattle.std.specs.Prelude.{◌≡◌, ℕ, List, take};
    ghost use Rattle.gd_cipher.specs.Schedules.{schedule};
    ghost use Rattle.gd_cipher.specs.Words.{bytes_of};

    ghost Value = { List ℕ };

    ghost view = { λ key. take 32 (bytes_of key.words) };

    ghost invariant = { λ key. bytes_of key.words ≡ schedule (take 32 (bytes_of key.words)) };
}

impl Key256 {
    /// Expands a key, once (FIPS 197 section 5.2).
    pub fn new(key: [u8; 32]) -> Self
        ensures { result ≡ key }
    {
        let mut words = [0; 60];
        BigEndian::read_u32_into(&key, &mut words[..8]);
        expand(&mut words, 8);
        Key256 { words }
    }

    /// Encrypts a block in place (FIPS 197 section 5.1).
    pub fn encrypt_block(&self, block: &mut [u8; 16])
        ensures block { block.new ≡ cipher self.now block.old }
        ensures key { AreBytes 32 self.now }
    {
        encrypt_block(self.words(), 14, block);
    }

    /// Decrypts a block in place (FIPS 197 section 5.3).
    pub fn decrypt_block(&self, block: &mut [u8; 16])
        ensures block { block.new ≡ decipher self.now block.old }
        ensures key { AreBytes 32 self.now }
    {
        decrypt_block(&self.opening_words(), 14, block);
    }

    /// The words of the round keys.
    #[inline]
    fn words(&self) -> &[u32; 60]
        ensures words { AreRoundKeys self.now 14 result.now }
        ensures key { AreBytes 32 self.now }
    {
        &self.words
    }

    /// The words of the keys for the equivalent inverse cipher.
    #[inline]
    fn opening_words(&self) -> [u32; 60]
        ensures words { AreOpeningKeys self.now 14 result }
        ensures key { AreBytes 32 self.now }
    {
        let mut words = self.words;
        unmix(&mut words);
        words
    }
}
