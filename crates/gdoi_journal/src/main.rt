//! Lists a journal: its octets come from standard input, and what it has goes to standard output, but for the values of its keys.
#![tactic(auto)]

use gd_edges::{StdSink, StdSource};
use journal_listing::list_journal;
use run_report::Ending;
use std::alloc::AllocError;
use std::env;
use std::io::ErrorKind;
use std::process::ExitCode;

fn main(rt: HostRuntime) -> ExitCode {
    let ending = match count_words(&rt) {
        Ok(words) => list(&rt, words),
        Err(AllocError) => Ending::Memory,
    };
    ExitCode::from(ending.status())
}

/// Lists the journal of standard input, where there are no words.
fn list(rt: &HostRuntime, words: usize) -> Ending {
    let mut journal = StdSource::new(rt.stdin());
    let mut out = StdSink::new(rt.stdout());
    list_journal(rt.alloc(), words, &mut journal, &mut out)
}

/// How many words come after the program's name; one where they cannot be had as text.
fn count_words(rt: &HostRuntime) -> Result<usize, AllocError> {
    match env::args(rt) {
        Ok(args) => Ok(args.skip(1).count()),
        Err(error) => match error.kind() {
            ErrorKind::OutOfMemory => Err(AllocError),
            _ => Ok(1),
        },
    }
}
