//! The records of a group's journal, written and read: the head, which says what the group is, and one for each batch, with the values of
//! its keys.
#![tactic(auto)]

pub use batches::{Stored, read_batch, write_batch};
pub use faults::RecordFault;
pub use fits::{prove_batch_fits, prove_head_fits};
pub use heads::{Head, read_head, write_head};
pub use laws::{a_read_batch_has_a_high_spi, a_written_record_is_read};

mod batches;
mod changes;
mod faults;
mod fits;
mod heads;
mod laws;
mod names;
mod nodes;
