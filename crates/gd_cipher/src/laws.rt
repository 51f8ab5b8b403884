//! That decrypting undoes encrypting, that opening undoes sealing, that a text is sealed in one way, and how far the IV matters.
ghost use Rattle.std.specs.Prelude.{◌≡◌, ℕ, List, length, drop, All};
ghost use Rattle.gd_cipher.specs.Bytes.{IsByte, AreBytes, IsKey};
ghost use Rattle.gd_cipher.specs.Ciphers.{cipher, decipher};
ghost use Rattle.gd_cipher.specs.Chains.{IsSealed, IsOpened};

/// A block encrypted and then decrypted under one key is as it was.
pub fn decrypt_undoes_encrypt()
    ensures { (key block : List ℕ) → IsKey key → AreBytes 16 block → decipher key (cipher key block) ≡ block }
{}

/// A text sealed and then opened under one key and IV is as it was.
pub fn open_undoes_seal()
    ensures { (key iv text sealed opened : List ℕ) → IsKey key → AreBytes 16 iv → All IsByte text →
        IsSealed key iv text sealed → IsOpened key iv sealed opened → opened ≡ text }
{}

/// A text has one sealed form under a key and an IV.
pub fn a_text_is_sealed_in_one_way()
    ensures { (key iv text one other : List ℕ) → length iv ≡ 16 →
        IsSealed key iv text one → IsSealed key iv text other → one ≡ other }
{}

/// A sealed text has one opened form under a key and an IV.
pub fn a_text_is_opened_in_one_way()
    ensures { (key iv sealed one other : List ℕ) → IsOpened key iv sealed one → IsOpened key iv sealed other → one ≡ other }
{}

/// What was sealed is opened as the text that it was.
pub fn what_was_sealed_opens()
    ensures { (key iv text sealed : List ℕ) → IsKey key → AreBytes 16 iv → All IsByte text →
        IsSealed key iv text sealed → IsOpened key iv sealed text }
{}

/// What was sealed is opened under another IV as the text that it was, but for the first block.
pub fn an_iv_matters_for_the_first_block_alone()
    ensures { (key iv other_iv text sealed opened : List ℕ) → IsKey key → length iv ≡ 16 → length other_iv ≡ 16 → All IsByte text →
        IsSealed key iv text sealed → IsOpened key other_iv sealed opened → drop 16 opened ≡ drop 16 text }
{}
