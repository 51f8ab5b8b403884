//! The report of a run, line by line, and how the run ends.
#![tactic(auto)]

mod endings;
mod ends;
mod report_sink;
mod stops;

pub use endings::Ending;
pub use ends::{Finished, end_script, end_soak, end_unopened, end_without_group};
pub use report_sink::{put_lines, report};
pub use stops::Stop;
