//! The member's side of a pull (RFC 6407 section 3): by it a member registers with a group and gets its keys.
#![tactic(auto)]

pub use group_terms::{GroupName, Keyed, NoMemory, Octets, Phase1};
pub use laws::{
    a_pull_always_fits, a_pull_gives_the_keys, a_pull_takes_messages_as_they_were_written,
    what_a_pull_takes_makes_a_store,
};
pub use pulls::{Begun, MemberPull, Step};
pub use refusals::PullRefusal;

mod laws;
mod pulls;
mod refusals;
