//! What a batch encrypts: each new key under those of its children below which somebody stayed, and how many encryptions that is at most (group-oriented
//! rekeying of Wong, Gouda and Lam).
#![tactic(auto)]

pub use laws::a_batch_encrypts_few;
pub use plans::plan;

mod laws;
mod plans;
