//! Key pairs, read from texts.
ghost use Rattle.std.specs.Prelude.{◌≡◌, ◌∷◌, [], ◌⊎◌, map, true, length, Ok, IsErr, IfOk, IfErr};
ghost use Rattle.std.specs.Str.Lines.{lines};
ghost use Rattle.hex.specs.Hex.{decode_of};
ghost use Rattle.rsa_sign.specs.Signatures.{is_tried};
ghost use Rattle.rsa_sign.specs.KeyTexts.{GiveKey, HaveFault, HasOctetFault, IsPairOf};
ghost use Rattle.rsa_sign.specs.declared.faults.TextFault.TheVariants as faults;

use crate::{KeyFault, RsaSigner, RsaVerifier, TextFault};
use hex::FromHexError;
use std::alloc::{AllocError, Global};

/// A key pair: who signs under its private key, and who checks under its public one. It shows itself to nobody, and the private exponent is overwritten when
/// the signer goes.
#[derive(Drop)]
pub struct RsaKey {
    pub signer: RsaSigner,
    pub verifier: RsaVerifier,
}

impl RsaKey {
    /// The key pair of a text of three lines: the modulus, the public exponent and the private exponent. Each is a number as octets in hexadecimal, the highest
    /// first, with digits of either case and nothing else. A line ends with a line feed, before which a carriage return may stand; the last line need not.
    ///
    /// `Missing` or `Further` where there are not three lines; `NotHex` for a line that is no octets in hexadecimal; `Key` for a number that is refused, each
    /// with its line; `NoMemory`.
    pub fn read(alloc: Global, text: &str) -> Result<RsaKey, TextFault>
        ensures ok { IfOk result (λ key. GiveKey (lines text.now) key.signer) }
        ensures verifier { IfOk result (λ key. key.verifier ≡ key.signer.public) }
        ensures tried { IfOk result (λ key. is_tried key.signer ≡ true) }
        ensures err { IfErr result (λ fault. HaveFault fault (lines text.now)) }
    {
        let Ok(lines) = all_lines(alloc, text) else {
            return Err(TextFault::NoMemory);
        };
        match lines.as_slice() {
            [modulus, public, private] => read_lines(alloc, modulus, public, private),
            [] => Err(TextFault::Missing { line: 1 }),
            [_] => Err(TextFault::Missing { line: 2 }),
            [_, _] => Err(TextFault::Missing { line: 3 }),
            _ => Err(TextFault::Further { line: 4 }),
        }
    }
}

/// The lines of a text.
fn all_lines(alloc: Global, text: &str) -> Result<Vec<&str>, AllocError>
    ensures { IfOk result (λ found. map (λ line. line.now) found.items ≡ lines text.now) }
{
    text.lines().collect(alloc)
}

/// The key pair of three lines.
fn read_lines(
    alloc: Global,
    modulus: &str,
    public: &str,
    private: &str,
) -> Result<RsaKey, TextFault>
    ensures ok { IfOk result (λ key. GiveKey (modulus.now ∷ public.now ∷ private.now ∷ []) key.signer) }
    ensures verifier { IfOk result (λ key. key.verifier ≡ key.signer.public) }
    ensures tried { IfOk result (λ key. is_tried key.signer ≡ true) }
    ensures err { IfErr result (λ fault. HaveFault fault (modulus.now ∷ public.now ∷ private.now ∷ [])) }
{
    let modulus = octets_of(alloc, modulus, 1)?;
    let public = octets_of(alloc, public, 2)?;
    let mut private = octets_of(alloc, private, 3)?;
    let key = key_of(modulus.as_slice(), public.as_slice(), private.as_slice());
    private.as_mut_slice().fill(0);
    match key {
        Ok(key) => Ok(key),
        Err(fault) => Err(TextFault::Key {
            line: fault.line(),
            fault,
        }),
    }
}

/// The octets of a line.
fn octets_of(alloc: Global, text: &str, line: u8) -> Result<Vec<u8>, TextFault>
    ensures ok { IfOk result (λ octets. decode_of text.now ≡ Ok octets.items) }
    ensures err { IfErr result (λ fault. (fault ≡ faults.NoMemory) ⊎ ((fault ≡ faults.NotHex line) × IsErr (decode_of text.now))) }
{
    match hex::decode(alloc, text) {
        Ok(octets) => Ok(octets),
        Err(FromHexError::OutOfMemory) => Err(TextFault::NoMemory),
        Err(_) => Err(TextFault::NotHex { line }),
    }
}

/// The key pair of these numbers.
fn key_of(modulus: &[u8], public: &[u8], private: &[u8]) -> Result<RsaKey, KeyFault>
    ensures ok { IfOk result (λ key. IsPairOf modulus.now public.now private.now key.signer) }
    ensures verifier { IfOk result (λ key. key.verifier ≡ key.signer.public) }
    ensures tried { IfOk result (λ key. is_tried key.signer ≡ true) }
    ensures err { IfErr result (λ fault. HasOctetFault fault modulus.now public.now private.now) }
{
    let verifier = RsaVerifier::new(modulus, public)?;
    let same = RsaVerifier::new(modulus, public)?;
    verifier.prove_public_key();
    same.prove_public_key();
    match RsaSigner::new(same, private) {
        Ok(signer) => Ok(RsaKey { signer, verifier }),
        Err(fault) => Err(fault),
    }
}
