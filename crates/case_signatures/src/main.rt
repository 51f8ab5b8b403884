//! Signs and checks under RSA keys, as each line of standard input asks, with octets in hexadecimal. Known keys and signatures are openssl's.
//!
//! ```text
//! key MODULUS PUBLIC PRIVATE    the key of the lines after it: `ok` and its bits, or `refused` and why
//! text OCTETS                   the same of a key's text
//! sign DIGEST                   the signature of a digest
//! check DIGEST SIGNATURE        `yes` or `no`
//! group WORD ..                 a group whose pushes the key signs, which is gone afterwards: `+NAME` comes in, `-NAME` goes out, `?NAME` is told its keys,
//!                               and `.` closes the batch. Each push, what the store of each member that was told says to it, and at last the last number and
//!                               the traffic key of each store
//! ```
#![tactic(auto)]

ghost use Rattle.std.specs.Prelude.{⊤};

use case_lines::{Cases, Text, answer_all, array, octets, put};
use gd_edges::{Signer, Verifier};
use rsa_sign::{KeyFault, RsaKey, RsaSigner, RsaVerifier, TextFault};
use std::alloc::Global;
use std::{io, str};

mod groups;

fn main(rt: HostRuntime) -> io::Result<()> {
    answer_all(
        &rt,
        Case {
            signer: None,
            verifier: None,
        },
    )
}

/// The key of the lines, and who checks under it.
#[derive(Drop)]
struct Case {
    signer: Option<RsaSigner>,
    verifier: Option<RsaVerifier>,
}

impl Cases for Case {
    // a line may come at any time
    ghost Ready = { λ _. ⊤ };

    fn answer(&mut self, rt: &HostRuntime, words: &[&str], text: &mut Text) -> Option<()> {
        match words {
            [word, modulus, public, private] if *word == "key" => self.take(
                rt.alloc(),
                modulus,
                public,
                private,
                text,
            )?,
            [word, key] if *word == "text" => self.take_text(rt.alloc(), key, text)?,
            [word, digest] if *word == "sign" => sign(self.signer.as_ref()?, digest, text)?,
            [word, digest, signature] if *word == "check" => check(
                rt.alloc(),
                self.verifier.as_ref()?,
                digest,
                signature,
                text,
            )?,
            [word, rest @ ..] if *word == "group" => self.run_group(rt.alloc(), rest, text)?,
            _ => return None,
        }
        text.add("\n");
        Some(())
    }
}

impl Case {
    /// Takes another key, and says of how many bits or why not.
    fn take(
        &mut self,
        alloc: Global,
        modulus: &str,
        public: &str,
        private: &str,
        text: &mut Text,
    ) -> Option<()> {
        let modulus = octets(alloc, modulus)?;
        let public = octets(alloc, public)?;
        let private = octets(alloc, private)?;
        let verifier = RsaVerifier::new(modulus.as_slice(), public.as_slice());
        let signer = signer_of(modulus.as_slice(), public.as_slice(), private.as_slice());
        match &signer {
            Ok(signer) => text.add_named("ok ", u64::from(signer.kind().key_bits)),
            Err(fault) => {
                text.add("refused ");
                text.add_value(fault);
            }
        }
        put(&mut self.signer, signer.ok());
        put(&mut self.verifier, verifier.ok());
        Some(())
    }

    /// Takes the key of a text, and says of how many bits, or why there is none.
    fn take_text(&mut self, alloc: Global, word: &str, text: &mut Text) -> Option<()> {
        match read_key(alloc, word)? {
            Ok(key) => {
                text.add_named("ok ", u64::from(key.verifier.bits()));
                let RsaKey { signer, verifier } = key;
                put(&mut self.signer, Some(signer));
                put(&mut self.verifier, Some(verifier));
            }
            Err(fault) => {
                text.add("refused ");
                text.add_value(&fault);
            }
        }
        Some(())
    }

    /// Runs a group whose pushes are signed under the key. The key is gone afterwards.
    fn run_group(&mut self, alloc: Global, words: &[&str], text: &mut Text) -> Option<()> {
        let signer = self.signer.take()?;
        groups::run(alloc, signer, self.verifier.as_ref()?, words, text)
    }
}

/// The key of a text in hexadecimal.
fn read_key(alloc: Global, word: &str) -> Option<Result<RsaKey, TextFault>> {
    let octets = octets(alloc, word)?;
    let text = str::from_utf8(octets.as_slice()).ok()?;
    Some(RsaKey::read(alloc, text))
}

/// Who signs under these numbers.
fn signer_of(modulus: &[u8], public: &[u8], private: &[u8]) -> Result<RsaSigner, KeyFault> {
    match RsaVerifier::new(modulus, public) {
        Ok(key) => RsaSigner::new(key, private),
        Err(fault) => Err(fault),
    }
}

/// Appends the signature of a digest.
fn sign(signer: &RsaSigner, digest: &str, text: &mut Text) -> Option<()> {
    text.add_hex(signer.sign(&array(digest)?).as_slice());
    Some(())
}

/// Says whether octets are a signature of a digest.
fn check(
    alloc: Global,
    verifier: &RsaVerifier,
    digest: &str,
    signature: &str,
    text: &mut Text,
) -> Option<()> {
    let signature = octets(alloc, signature)?;
    text.add(if verifier.check(&array(digest)?, signature.as_slice()) {
        "yes"
    } else {
        "no"
    });
    Some(())
}
