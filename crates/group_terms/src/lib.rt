//! What nearly never changes: lists and logs that answer `NoMemory`, the positions of the key tree, the names of
//! members and keys, the octets of keys, rules of who may join, what a batch of changes says, why octets are no text of their grammar, and
//! how faults of the outside are counted.
#![tactic(auto)]

pub use changes::{Batch, Change, MOST_CHANGES, is_named};
pub use faults::{Failed, counted_on};
pub use groups::GroupName;
pub use keys::{KeyName, Wrap};
pub use leaf_marks::LeafMarks;
pub use lists::{List, Octets};
pub use logs::Log;
pub use marks::{a_mark_is_that_of_a_child, marks_above};
pub use members::{MOST_MEMBERS, MemberNames};
pub use memory::NoMemory;
pub use names::MemberName;
pub use paths::{Keyed, LONGEST_PATH, Path, PathKey};
pub use patterns::{Pattern, Rule};
pub use phases::Phase1;
pub use positions::LkhId;
pub use pushes::PushRefusal;
pub use schedules::Schedule;
pub use short_octets::ShortOctets;
pub use signatures::SignKind;
pub use values::{BatchValues, Drawn, IV_OCTETS, KEY_OCTETS, NodeValue, TrafficValue};
pub use wires::{WireFault, WireWhat};

mod changes;
mod faults;
mod groups;
mod keys;
mod leaf_marks;
mod lists;
mod logs;
mod marks;
mod members;
mod memory;
mod names;
mod paths;
mod patterns;
mod phases;
mod positions;
mod pushes;
mod schedules;
mod short_octets;
mod signatures;
mod values;
mod wires;
