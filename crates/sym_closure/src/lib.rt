//! What can be derived from keys that are held and pairs of keys of which one encrypts the other, by their names alone; what a
//! history gave its members to hold and sent for all to see; and who can derive the traffic key of which epoch.
#![tactic(auto)]

pub use closures::derive;
pub use derivations::is_derivation;
pub use group_model::Derivation;
pub use histories::{held, sent_pairs};
pub use laws::{
    a_history_serves_its_members, a_longer_list_has_a_larger_world, members_derive,
    no_others_derive, what_is_known_stays_known,
};
pub use sent::Sent;

mod closures;
mod derivations;
mod graphs;
mod histories;
mod laws;
mod once;
mod reached;
mod sent;
