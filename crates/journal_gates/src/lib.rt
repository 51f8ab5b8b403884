//! The commit marks of a journal: a piece is written after a clear mark, which is set when the piece is on the device; a reader goes by the marks.
#![tactic(auto)]

pub use gates::{OPEN, SHUT, write_gated, write_through};
pub use heads::{Head, MOST, head_in};

mod gates;
mod heads;
