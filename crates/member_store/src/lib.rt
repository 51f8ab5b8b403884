//! A member's store of keys: what it has of its group, as the pushes make it (RFC 6407 section 4).
#![tactic(auto)]

pub use answers::{Older, Taken};
pub use group_terms::{Keyed, LkhId, PushRefusal, TrafficValue};
pub use laws::{a_datagram_has_one_answer, a_refusal_changes_nothing, each_cause_has_its_refusal};
pub use push_msg::Room;
pub use stores::MemberStore;

mod answers;
mod dues;
mod laws;
mod openings;
mod paths;
mod stores;
mod takings;
