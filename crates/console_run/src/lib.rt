//! The console: it reads words and a script, runs a group in its journal, and reports what happens, line by line.
#![tactic(auto)]

mod block_run;
mod consoles;
mod held;
mod line_run;
mod open_blocks;
mod script_run;
mod soaks;
mod tools;

pub use consoles::{console, seed_of};
pub use run_report::{Ending, Finished};
