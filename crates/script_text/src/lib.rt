//! The script that a console reads, line by line, and the report that it writes, entry by entry.
#![tactic(auto)]

pub use ends::end_line;
pub use lines::{Line, MOST_LINE_OCTETS, read_line};
pub use numbers::{append_number, append_place, read_decimal, read_decimal_to};
pub use pushes::append_hex;
pub use reports::report_entry;
pub use scripts::soak_script;
pub use soaks::{Soak, soak_line};
pub use summaries::soak_summary;

mod blocks;
mod changes;
mod derivations;
mod ends;
mod lines;
mod members;
mod messages;
mod numbers;
mod openings;
mod pushes;
mod refusals;
mod reports;
mod scripts;
mod seen;
mod soaks;
mod stores;
mod summaries;
mod tallies;
mod texts;
mod words;
mod wraps;
