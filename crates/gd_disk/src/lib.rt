//! Disks: what a disk promises of its octets and of what a crash may leave, and one in memory that fails at chosen calls and can be crashed.
#![tactic(auto)]

pub use disks::Disk;
pub use group_terms::Failed;
pub use laws::a_crash_may_leave_nothing_or_all;
pub use mem_disks::MemDisk;
pub use places::{FARTHEST, ends_too_far};

mod crashes;
mod disks;
mod events;
mod laws;
mod mem_calls;
mod mem_disks;
mod octets;
mod places;
