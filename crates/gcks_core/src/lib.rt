//! The core of a key server: a group in its journal, its key tree, changes that wait, and batches with their pushes.
#![tactic(auto)]

pub use batch_queue::Queue;
pub use cores::Core;
pub use group_model::{Counter, PushPair, Refusal};
pub use group_terms::{GroupName, Keyed, LkhId, MemberName, SignKind, TrafficValue};
pub use outputs::{CoreOpened, CoreOutput, NewGroup, Opening, Parts};
pub use prepared::Prepared;

mod bounds;
mod committing;
mod cores;
mod looks;
mod makings;
mod outputs;
mod prepared;
mod preparing;
mod reading;
mod waiting;
