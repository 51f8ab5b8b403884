//! AES (FIPS 197), its cipher block chaining (SP 800-38A), HMAC with SHA-256 (RFC 2104), and IVs of phase 2. No call takes memory, and none refuses.
#![tactic(auto)]

pub use chains::{cbc_open, cbc_seal};
pub use keys::{Key128, Key256};
pub use laws::{
    a_text_is_opened_in_one_way, a_text_is_sealed_in_one_way,
    an_iv_matters_for_the_first_block_alone, decrypt_undoes_encrypt, open_undoes_seal,
    what_was_sealed_opens,
};
pub use macs::{Hmac, phase2_iv};

mod blocks;
mod chains;
mod columns;
mod keys;
mod laws;
mod macs;
mod schedules;
mod tables;
