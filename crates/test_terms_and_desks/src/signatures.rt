//! Signatures of tests.
use gd_edges::{SignKind, Signer, TestSigner, TestVerifier, Verifier};

const DIGEST: [u8; 32] = [
    0x00, 0x01, 0x02, 0x03, 0x04, 0x05, 0x06, 0x07, 0x08, 0x09, 0x0a, 0x0b, 0x0c, 0x0d, 0x0e, 0x0f,
    0x10, 0x11, 0x12, 0x13, 0x14, 0x15, 0x16, 0x17, 0x18, 0x19, 0x1a, 0x1b, 0x1c, 0x1d, 0x1e, 0x1f,
];

/// It was computed by another implementation.
const SIGNATURE: [u8; 32] = [
    0x94, 0xb2, 0x6d, 0x2e, 0x34, 0xa1, 0x2c, 0x71, 0x9a, 0x98, 0x35, 0x4f, 0xbd, 0x75, 0x8f, 0xf9,
    0x58, 0xa8, 0xe8, 0x1b, 0x10, 0x1d, 0xfa, 0x18, 0xee, 0xac, 0xee, 0x02, 0x3a, 0xaf, 0xa7, 0xc7,
];

#[test]
fn a_test_signer_signs_and_a_test_verifier_accepts_that_alone(rt: HostRuntime) {
    assert!(rt; signs_and_checks(&TestSigner::new(), &TestVerifier::new()));
}

/// Whether this signature is made, and accepted alone, and both are of the kind of tests.
fn signs_and_checks<S: Signer, V: Verifier>(signer: &S, verifier: &V) -> bool {
    let kind = SignKind {
        algorithm: 128,
        key_bits: 256,
    };
    let (digest, signature) = (DIGEST, SIGNATURE);
    let mut changed = signature;
    changed[31] ^= 1;
    let signed = signer.sign(&digest);
    (signer.kind() == kind)
        & (verifier.kind() == kind)
        & (signed.as_slice() == signature.as_slice())
        & verifier.check(&digest, signed.as_slice())
        & verifier.check(&digest, &signature)
        & !verifier.check(&digest, &changed)
        & !verifier.check(&digest, &signature[..31])
        & !verifier.check(&digest, b"")
}
