//! Workers that register members: they take turns at one key server, each in a thread of its own, and each turn is in one history.
#![tactic(auto)]

pub use blocks::{Blocked, run_block};
pub use books::Book;
pub use desk_books::{OnBoard, publish};
pub use laws::{a_block_has_few_turns, each_line_has_its_own_turns, each_look_was_shown};
pub use lines::{BlockAsk, BlockLine};

mod blocks;
mod books;
mod desk_books;
mod laws;
mod lines;
mod requests;
mod running;
mod seats;
mod sittings;
mod turns;
mod workers;
