//! That what is signed is accepted.
ghost use Rattle.std.specs.Prelude.{◌≡◌, ℕ, ◌<◌, List, length, slice_index, true};
ghost use Rattle.rsa_sign.specs.Keys.{KeyPair, IsPublicKey, AreExponents};
ghost use Rattle.rsa_sign.specs.Signatures.{signature_of, accepts};

use big_mod::{a_number_has_its_octets, octets_have_their_number};

/// What a key pair signs is accepted under its public key, where the exponents undo each other.
pub fn signatures_are_accepted()
    ensures { (pair : KeyPair) → IsPublicKey pair.public → AreExponents pair → (digest : List ℕ) → ((at : ℕ) → slice_index digest at < 256) →
        length digest ≡ 32 → accepts pair.public digest (signature_of pair digest) ≡ true }
{
    a_number_has_its_octets();
    octets_have_their_number();
}
