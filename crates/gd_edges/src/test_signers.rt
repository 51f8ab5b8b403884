//! Signatures of tests, which keep nobody out: everybody knows their key.
ghost use Rattle.std.specs.Prelude.{◌≡◌, ◌<◌, ◌≤◌, ℕ, List, true, length};
ghost use Rattle.gd_edges.specs.Signatures.{test_signature, accepts_test, test_kind, test_size};

use crate::{SigBytes, SignKind, Signer, Verifier};
use gd_cipher::Hmac;

/// An algorithm for private use, whose stated key length is the length of the hash.
const TEST_KIND: SignKind = SignKind {
    algorithm: 128,
    key_bits: 256,
};

/// The octets of the hash.
const TEST_SIZE: usize = 32;

/// Signs by HMAC with SHA-256 under a key that everybody knows: for tests alone.
#[derive(Clone, Copy, Default, PartialEq, Eq)]
pub struct TestSigner;

impl TestSigner {
    /// A signer of tests. All are alike.
    pub fn new() -> Self
        ensures octets { (digest : List ℕ) →
            ⟦<TestSigner as Signer>⟧.signature result digest ≡ test_signature digest }
        ensures kind { ⟦<TestSigner as Signer>⟧.kind_of result ≡ test_kind }
        ensures size { ⟦<TestSigner as Signer>⟧.size_of result ≡ test_size }
    {
        TestSigner
    }
}

impl Signer for TestSigner {
    ghost signature = { λ _ digest. test_signature digest };

    ghost kind_of = { λ _. test_kind };

    ghost size_of = { λ _. test_size };

    fn sign(&self, digest: &[u8; 32]) -> SigBytes
        ensures octets { result ≡ test_signature digest.now }
        ensures size { length result ≡ test_size }
        ensures some { 0 < length result }
        ensures few { length result ≤ 512 }
    {
        SigBytes::new(&keyed_hash(digest))
    }

    fn kind(&self) -> SignKind {
        TEST_KIND
    }

    fn size(&self) -> usize {
        TEST_SIZE
    }
}

/// Accepts what a [`TestSigner`] signs, and nothing else: for tests alone.
#[derive(Clone, Copy, Default, PartialEq, Eq)]
pub struct TestVerifier;

impl TestVerifier {
    /// A verifier of tests. All are alike.
    pub fn new() -> Self
        ensures accepts { (digest signature : List ℕ) →
            ⟦<TestVerifier as Verifier>⟧.accepts result digest signature ≡
            accepts_test digest signature }
        ensures kind { ⟦<TestVerifier as Verifier>⟧.kind_of result ≡ test_kind }
    {
        TestVerifier
    }
}

impl Verifier for TestVerifier {
    ghost accepts = { λ _ digest signature. accepts_test digest signature };

    ghost kind_of = { λ _. test_kind };

    fn check(&self, digest: &[u8; 32], signature: &[u8]) -> bool {
        signature == keyed_hash(digest).as_slice()
    }

    fn kind(&self) -> SignKind {
        TEST_KIND
    }
}

/// The hash of a digest under the key of tests.
fn keyed_hash(digest: &[u8; 32]) -> [u8; 32]
    ensures { result ≡ test_signature digest.now }
{
    let mut hash = Hmac::new(b"gdoi test signer");
    hash.add(digest);
    hash.finish()
}

/// A test verifier accepts what a test signer signs, and nothing else, and both are of one kind.
pub fn test_signatures_are_accepted()
    ensures accepted { (signer : TestSigner) (verifier : TestVerifier) (digest : List ℕ) →
        ⟦<TestVerifier as Verifier>⟧.accepts verifier digest
        (⟦<TestSigner as Signer>⟧.signature signer digest) ≡ true }
    ensures alone { (signer : TestSigner) (verifier : TestVerifier) (digest signature : List ℕ) →
        ⟦<TestVerifier as Verifier>⟧.accepts verifier digest signature ≡ true →
        signature ≡ ⟦<TestSigner as Signer>⟧.signature signer digest }
    ensures kind { (signer : TestSigner) (verifier : TestVerifier) →
        ⟦<TestSigner as Signer>⟧.kind_of signer ≡
        ⟦<TestVerifier as Verifier>⟧.kind_of verifier }
{}
