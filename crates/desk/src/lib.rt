//! A desk: threads take turns at one value, first come, first served, and every turn stands in one history.
//!
//! A thread comes with a pass. A turn hands an event to the value, which answers and appends one entry to its history. What a pass knows
//! grows with its turns, and when it meets other passes. Who hands all passes back gets the value, and knows whose each entry is.
#![tactic(auto)]

pub use calls::{Call, Calls};
pub use closes::{Closed, DeskOpen};
pub use desks::Desk;
pub use kept::Kept;
pub use makes::{DeskLost, DeskMade};
pub use passes::Pass;
pub use turns::LedgerFull;

mod bells;
mod calls;
mod closes;
mod desks;
mod kept;
mod makes;
mod meets;
mod passes;
mod plays;
mod rounds;
mod rules;
mod turns;
mod views;
