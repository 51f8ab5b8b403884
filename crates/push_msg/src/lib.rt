//! The pushes of GDOI (RFC 6407 section 4), by which a group gets new keys: the membership push and the traffic push.
#![tactic(auto)]

pub use bodies::{OpenBody, OpenPush};
pub use group_terms::{Octets, PushRefusal};
pub use laws::{a_written_push_is_read, written_pushes_have_their_size};
pub use opening::open_push;
pub use rooms::Room;
pub use writers::{PushHead, write_membership, write_traffic};

mod bodies;
mod digests;
mod drafts;
mod laws;
mod opening;
mod reading;
mod rooms;
mod rows;
mod texts;
mod writers;
