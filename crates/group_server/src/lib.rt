//! The key server of a group (RFC 6407 section 3): its policy, the sessions of pulls, and the core with its tree, keys and journal.
#![tactic(auto)]

pub use answers::{answer_batch, answer_served};
pub use gcks_core::{NewGroup, Opening, Parts};
pub use laws::a_server_may_not_refuse;
pub use replies::{Reply, ServerOpened};
pub use servers::GroupServer;

mod accepting;
mod answering;
mod answers;
mod judging;
mod laws;
mod looks;
mod messages;
mod refusals;
mod replies;
mod servers;
