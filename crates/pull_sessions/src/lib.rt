//! The server's side of pulls (RFC 6407 section 3): the phase 1 SAs that were introduced, each with at most one session.
//!
//! A session keeps the datagram that it took last, and what was answered to it, so that the same datagram gets the same octets again. So an SA takes about
//! 700 octets, with its session and its entries in two indexes, and beside them the datagram that the session took last, at most 65,507 octets, and the answer
//! that it was given. List and indexes grow in steps, so they may hold room for more SAs than there are.
#![tactic(auto)]

pub use answers::{Kept, Looked, LookedAt, Step, copy_of_reply};
pub use group_model::SymReply;
pub use group_terms::{Keyed, MemberName, NoMemory, Octets, Phase1};
pub use laws::what_is_found_can_be_held;
pub use pull_msgs::{First, Nonce, Third};
pub use refusals::SessionRefusal;
pub use sa_wire::SaPolicy;
pub use sas::{Sa, Session};
pub use sessions::Sessions;

mod answers;
mod fits;
mod laws;
mod looks;
mod messages;
mod refusals;
mod sas;
mod sessions;
