//! The key tree of a group at the present epoch: who has which leaf, when each position got its key, and what the keys' values are. A batch is marked in it
//! first, and installed once it is stored.
#![tactic(auto)]

pub use key_trees::{KeyTree, above};
pub use marks::{Marked, Renewed};

mod free_leaves;
mod installing;
mod key_trees;
mod levels;
mod marks;
mod preparing;
mod seating;
mod seats;
mod vacant;
