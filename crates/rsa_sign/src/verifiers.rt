//! Who checks signatures under a public key.
ghost use Rattle.std.specs.Prelude.{◌≡◌, ◌-◌, ◌%◌, ◌^◌, ◌<◌, ◌≤◌, ◌⊎◌, ◌==◌, ◌&&◌, nat_lt, ℕ, length, take, IfOk, IfErr, MatchOption};
ghost use Rattle.std.specs.Str.{bytes_eq};
ghost use Rattle.big_mod.specs.Numbers.{number_of, octets_of};
ghost use Rattle.rsa_sign.specs.Keys.{IsPublicKey, HasFault, octet_count};
ghost use Rattle.rsa_sign.specs.Messages.{encoded};
ghost use Rattle.rsa_sign.specs.Signatures.{accepts};

use crate::KeyFault;
use crate::encodings::encode;
use big_mod::{
    Modulus, a_number_has_its_octets, bit_count, octets_have_their_number, small_number,
    without_zeros,
};
use gd_edges::{SignKind, Verifier};
use std::marker::Model;

/// A public key, which checks signatures.
#[derive(Drop)]
pub struct RsaVerifier {
    modulus: Modulus,
    exponent: u64,
    bits: u16,
    size: usize,
}

impl Model for RsaVerifier {
    ghost use Rattle.std.specs.Prelude.{◌≡◌};
    ghost use Rattle.rsa_sign.specs.Keys.{PublicKey, IsPublicKey, octet_count};

    ghost Value = { PublicKey };

    ghost view = { λ key. record { modulus = key.modulus; exponent = key.exponent; bits = key.bits } };

    ghost invariant = { λ key. IsPublicKey (record { modulus = key.modulus; exponent = key.exponent; bits = key.bits }) × (key.size ≡ octet_count key.bits) };
}

impl RsaVerifier {
    /// The public key of a modulus and an exponent, given as octets, the highest first.
    pub fn new(modulus: &[u8], exponent: &[u8]) -> Result<Self, KeyFault>
        ensures ok { IfOk result (λ key. (key.modulus ≡ number_of modulus.now) × (key.exponent ≡ number_of exponent.now)) }
        ensures err { IfErr result (λ fault. HasFault fault (number_of modulus.now) (number_of exponent.now)) }
    {
        let octets = without_zeros(modulus);
        if octets.len() > 512 {
            return Err(KeyFault::ManyBits);
        }
        let bits = bit_count(octets);
        if bits < 2048 {
            return Err(KeyFault::FewBits);
        }
        let Some(exponent) = exponent_of(exponent) else {
            return Err(KeyFault::PublicExponent);
        };
        match Modulus::new(octets) {
            Some(modulus) => Ok(RsaVerifier {
                modulus,
                exponent,
                bits: bits as u16,
                size: (bits + 7) / 8,
            }),
            None => Err(KeyFault::EvenModulus),
        }
    }

    /// How many bits the modulus has.
    pub fn bits(&self) -> u16
        ensures bits { result ≡ self.now.bits }
        ensures key { IsPublicKey self.now }
    {
        self.bits
    }

    /// That its numbers are those of a public key.
    pub(crate) fn prove_public_key(&self)
        ensures { IsPublicKey self.now }
    {
        let _ = &self.bits;
    }

    /// The modulus.
    pub(crate) fn modulus(&self) -> &Modulus
        ensures { result.now ≡ self.now.modulus }
    {
        &self.modulus
    }

    /// How many octets the modulus has.
    pub(crate) fn size(&self) -> usize
        ensures is { result ≡ octet_count self.now.bits }
        ensures long { 54 ≤ result }
        ensures few { result ≤ 512 }
        ensures least { 256 ^ (result - 1) ≤ self.now.modulus }
        ensures room { self.now.modulus < 256 ^ result }
    {
        self.size
    }
}

impl Verifier for RsaVerifier {
    ghost accepts = { λ key digest signature. accepts key digest signature };

    ghost kind_of = { λ key. record { algorithm = 1; key_bits = key.bits } };

    fn check(&self, digest: &[u8; 32], signature: &[u8]) -> bool {
        is_signature(&self.modulus, self.exponent, self.size, digest, signature)
    }

    fn kind(&self) -> SignKind {
        SignKind {
            algorithm: 1,
            key_bits: self.bits,
        }
    }
}

/// A public exponent of at most 64 bits, which is not 0.
fn exponent_of(octets: &[u8]) -> Option<u64>
    ensures { MatchOption result ((number_of octets.now ≡ 0) ⊎ (2 ^ 64 ≤ number_of octets.now))
        (λ exponent. (exponent ≡ number_of octets.now) × (0 < exponent)) }
{
    let exponent = small_number(octets)?;
    if exponent == 0 {
        return None;
    }
    Some(exponent)
}

/// Whether octets are a signature of a digest under a modulus of so many octets.
fn is_signature(
    modulus: &Modulus,
    exponent: u64,
    size: usize,
    digest: &[u8; 32],
    signature: &[u8],
) -> bool
    requires some { 0 < exponent }
    requires long { 54 ≤ size }
    requires few { size ≤ 512 }
    requires room { modulus.now ≤ 256 ^ size }
    ensures { result ≡ ((length signature.now == size) && nat_lt (number_of signature.now) modulus.now &&
        bytes_eq (octets_of size (number_of signature.now ^ exponent % modulus.now)) (encoded size digest.now)) }
{
    if signature.len() != size {
        return false;
    }
    if modulus.is_above(signature) {
        return is_power(modulus, exponent, size, digest, signature);
    }
    false
}

/// Whether the power of a signature is the whole encoded message of a digest.
fn is_power(
    modulus: &Modulus,
    exponent: u64,
    size: usize,
    digest: &[u8; 32],
    signature: &[u8],
) -> bool
    requires some { 0 < exponent }
    requires long { 54 ≤ size }
    requires few { size ≤ 512 }
    requires room { modulus.now ≤ 256 ^ size }
    requires octets { length signature.now ≤ 512 }
    requires below { number_of signature.now < modulus.now }
    ensures { result ≡ bytes_eq (octets_of size (number_of signature.now ^ exponent % modulus.now)) (encoded size digest.now) }
{
    let found = powered(modulus, exponent, size, signature);
    let message = message(size, digest);
    are_same(&found[..size], &message[..size])
}

/// Whether octets are the same.
fn are_same(these: &[u8], those: &[u8]) -> bool
    ensures { result ≡ bytes_eq these.now those.now }
{
    these == those
}

/// The power of a signature by a public exponent, as so many octets, and zeros after them.
fn powered(modulus: &Modulus, exponent: u64, size: usize, signature: &[u8]) -> [u8; 512]
    requires some { 0 < exponent }
    requires few { size ≤ 512 }
    requires room { modulus.now ≤ 256 ^ size }
    requires octets { length signature.now ≤ 512 }
    requires below { number_of signature.now < modulus.now }
    ensures { take size result ≡ octets_of size (number_of signature.now ^ exponent % modulus.now) }
{
    a_number_has_its_octets();
    let mut found = [0; 512];
    modulus.public_power(signature, exponent, &mut found[..size]);
    found
}

/// The encoded message of a digest, and zeros after it.
pub(crate) fn message(size: usize, digest: &[u8; 32]) -> [u8; 512]
    requires long { 54 ≤ size }
    requires few { size ≤ 512 }
    ensures is { take size result ≡ encoded size digest.now }
    ensures below { (modulus : ℕ) → 256 ^ (size - 1) ≤ modulus → number_of (take size result) < modulus }
{
    octets_have_their_number();
    let mut message = [0; 512];
    encode(digest, &mut message[..size]);
    message
}
