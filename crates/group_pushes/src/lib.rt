//! The two pushes of a batch (RFC 6407 section 4): the membership push, with the new keys of the tree, and the traffic push.
#![tactic(auto)]

pub use fits::prove_values_fit;
pub use laws::pairs_of_a_batch_are_one;
pub use pairs::write_pair;

mod arrays;
mod fits;
mod laws;
mod pairs;
