//! RSA signatures of digests by SHA-256, as RFC 6407 section 5.3 names them: EMSA-PKCS1-v1_5 (RFC 8017), with keys of 2,048 to 4,096 bits.
//!
//! No call but the reading of a key's text takes memory. The work of a signature depends on how many octets the private exponent has, and not on what they are; that is how the code
//! is written, and nothing here proves it of the machine.
#![tactic(auto)]

pub use faults::{KeyFault, TextFault};
pub use keys::RsaKey;
pub use laws::signatures_are_accepted;
pub use signers::RsaSigner;
pub use verifiers::RsaVerifier;

mod encodings;
mod faults;
mod keys;
mod laws;
mod signers;
mod verifiers;
