//! Who signs under a private key.
ghost use Rattle.std.specs.Prelude.{◌≡◌, ◌%◌, ◌^◌, ◌<◌, ◌≤◌, length, take, true, IfOk, IfErr, MatchOption};
ghost use Rattle.big_mod.specs.Numbers.{number_of, octets_of};
ghost use Rattle.rsa_sign.specs.Keys.{octet_count};
ghost use Rattle.rsa_sign.specs.Signatures.{signature_of, is_tried, IsRefused};

use crate::verifiers::message;
use crate::{KeyFault, RsaVerifier};
use big_mod::{Modulus, a_number_has_its_octets, without_zeros, write_number};
use gd_edges::{SigBytes, SignKind, Signer, Verifier};
use std::marker::Model;

/// A key pair, which signs. The private exponent has as many octets as the modulus, and is overwritten when the value goes, as far as the compiler leaves that.
pub struct RsaSigner {
    key: RsaVerifier,
    private: [u8; 512],
}

impl Model for RsaSigner {
    ghost use Rattle.std.specs.Prelude.{take};
    ghost use Rattle.big_mod.specs.Numbers.{number_of};
    ghost use Rattle.rsa_sign.specs.Keys.{KeyPair, octet_count};

    ghost Value = { KeyPair };

    ghost view = { λ signer. record { public = signer.key; private = number_of (take (octet_count signer.key.bits) signer.private) } };
}

impl Drop for RsaSigner {
    fn drop(self) {
        let RsaSigner {
            key: _,
            mut private,
        } = self;
        private.fill(0);
    }
}

impl RsaSigner {
    /// The key pair of a public key and a private exponent, given as octets, the highest first. It is refused where what it signs is not accepted.
    pub fn new(key: RsaVerifier, private: &[u8]) -> Result<Self, KeyFault>
        ensures ok { IfOk result (λ pair. pair ≡ record { public = key; private = number_of private.now }) }
        ensures tried { IfOk result (λ pair. is_tried pair ≡ true) }
        ensures err { IfErr result (λ fault. IsRefused fault (record { public = key; private = number_of private.now })) }
    {
        match RsaSigner::paired(key, private) {
            Some(signer) => {
                if signer.signs() {
                    Ok(signer)
                } else {
                    Err(KeyFault::Pair)
                }
            }
            None => Err(KeyFault::PrivateExponent),
        }
    }

    /// A public key with a private exponent below its modulus, of which nothing was tried.
    fn paired(key: RsaVerifier, private: &[u8]) -> Option<Self>
        ensures { MatchOption result (key.modulus ≤ number_of private.now)
            (λ pair. pair ≡ record { public = key; private = number_of private.now }) }
    {
        let octets = without_zeros(private);
        let size = key.size();
        if octets.len() > size {
            return None;
        }
        if key.modulus().is_above(octets) {
            let private = widened(octets, size);
            return Some(RsaSigner { key, private });
        }
        None
    }

    /// Whether it accepts what it signs, tried at one digest.
    fn signs(&self) -> bool
        ensures { result ≡ is_tried self.now }
    {
        let digest = [0; 32];
        let signature = self.sign(&digest);
        self.key.check(&digest, signature.as_slice())
    }
}

impl Signer for RsaSigner {
    ghost signature = { λ pair digest. signature_of pair digest };

    ghost kind_of = { λ pair. record { algorithm = 1; key_bits = pair.public.bits } };

    ghost size_of = { λ pair. octet_count pair.public.bits };

    fn sign(&self, digest: &[u8; 32]) -> SigBytes {
        a_number_has_its_octets();
        let size = self.key.size();
        let message = message(size, digest);
        let signed = signed(self.key.modulus(), &message, &self.private, size);
        SigBytes::new(&signed[..size])
    }

    fn kind(&self) -> SignKind {
        SignKind {
            algorithm: 1,
            key_bits: self.key.bits(),
        }
    }

    fn size(&self) -> usize {
        self.key.size()
    }
}

/// Octets as so many, with zeros before them, and zeros after those.
fn widened(octets: &[u8], size: usize) -> [u8; 512]
    requires few { size ≤ 512 }
    requires short { length octets.now ≤ size }
    requires room { number_of octets.now < 256 ^ size }
    ensures { number_of (take size result) ≡ number_of octets.now }
{
    a_number_has_its_octets();
    let mut block = [0; 512];
    write_number(octets, &mut block[..size]);
    block
}

/// The power of a message by a private exponent, each of so many octets, and zeros after it.
fn signed(modulus: &Modulus, message: &[u8; 512], private: &[u8; 512], size: usize) -> [u8; 512]
    requires few { size ≤ 512 }
    requires below { number_of (take size message.now) < modulus.now }
    requires room { modulus.now ≤ 256 ^ size }
    ensures { take size result ≡ octets_of size (number_of (take size message.now) ^ number_of (take size private.now) % modulus.now) }
{
    a_number_has_its_octets();
    let mut signed = [0; 512];
    modulus.power(&message[..size], &private[..size], &mut signed[..size]);
    signed
}
