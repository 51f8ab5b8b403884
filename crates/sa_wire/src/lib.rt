//! The SA payload of GDOI (RFC 6407 section 5.2): the policies of the KEK and the TEK, read and written exactly.
#![tactic(auto)]

pub use group_terms::{SignKind, WireFault, WireWhat};
pub use laws::{
    written_policies_are_octets, written_policies_are_read, written_policies_have_their_size,
};
pub use places::{PlacedKek, PlacedSa, PlacedTek};
pub use policies::{KekPolicy, SaPolicy, TekPolicy, read_placed_sa, read_sa};
pub use texts::{sa_size, write_sa};

mod attributes;
mod laws;
mod numbers;
mod places;
mod policies;
mod rules;
mod texts;
