//! Where octets come from and go to: sources and sinks, over std's and in memory; who signs and who checks signatures; and draws of new keys.
#![tactic(auto)]

pub use chacha_draws::ChaChaDraws;
pub use draw_lists::DrawList;
pub use draws::Draws;
pub use group_terms::{Failed, SignKind};
pub use signatures::SigBytes;
pub use signers::Signer;
pub use sinks::Sink;
pub use sources::Source;
pub use std_sinks::StdSink;
pub use std_sources::StdSource;
pub use test_signers::{TestSigner, TestVerifier, test_signatures_are_accepted};
pub use text_sinks::TextSink;
pub use text_sources::TextSource;
pub use verifiers::Verifier;

mod chacha_draws;
mod draw_lists;
mod draws;
mod signatures;
mod signers;
mod sinks;
mod sources;
mod std_sinks;
mod std_sources;
mod test_signers;
mod text_sinks;
mod text_sources;
mod verifiers;
