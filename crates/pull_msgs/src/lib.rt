//! The messages of a pull (RFC 6407 section 3), by which a member registers, written and read exactly.
#![tactic(auto)]

pub use faults::PullFault;
pub use fits::{prove_nonce_fits, prove_phase_fits, prove_policies_fit};
pub use group_terms::{GroupName, Keyed, Octets, Phase1};
pub use laws::{
    a_message_is_taken_as_it_was_written, a_taken_message_has_its_sizes, a_taken_reply_is_a_path,
    a_written_message_is_read, each_answer_has_its_cause, written_messages_have_their_size,
};
pub use messages::{First, Second, Third};
pub use nonces::Nonce;
pub use opening::next_iv;
pub use readers::{read_first, read_fourth, read_second, read_third};
pub use writers::{write_first, write_fourth, write_second, write_third};

mod drafts;
mod faults;
mod fits;
mod hashes;
mod laws;
mod messages;
mod nonces;
mod opening;
mod readers;
mod reading;
mod writers;
