//! An append-only journal on a disk: on an honest one its records are whole or absent, whatever call fails and whenever the machine stops.
#![tactic(auto)]

pub use journals::Journal;
pub use laws::{
    a_journal_breaks_off_further_on, a_record_is_the_next_one, records_are_the_next_ones,
};
pub use refusals::{FormatRefusal, JournalRefusal};

mod appends;
mod formats;
mod journals;
mod laws;
mod reads;
mod refusals;
