//! Threads that share a desk. Code here knows the desk by a trait alone, so it is proved for every kept value, also one that borrows.
#![tactic(auto)]

pub use benches::{Bench, do_all};
pub use sites::Site;
pub use works::work_all;

mod benches;
mod sites;
mod works;
