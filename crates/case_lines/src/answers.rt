//! Standard input, answered line by line.

use crate::Text;
use std::io;
use std::io::{BufRead, BufReader, ErrorKind};

/// Cases so far.
pub trait Cases {
    // What has to be known of the cases for the next line to be answered.
    ghost Ready: { Self → Type 0 };

    /// Does what the words of a line ask for, and appends the answer. `None` where they ask for nothing that can be done.
    fn answer(&mut self, rt: &HostRuntime, words: &[&str], text: &mut Text) -> Option<()>
        requires { Ready self.old }
        ensures { Ready self.new };
}

/// Answers standard input, line by line, from the first case on. `InvalidInput` at the first line that asks for nothing that can be done.
pub fn answer_all<C: Cases + Drop>(rt: &HostRuntime, mut cases: C) -> io::Result<()>
    requires { C.Ready cases }
{
    let input = BufReader::new(rt.alloc(), rt.reader())?;
    for line in input.lines(rt.alloc()) {
        let line = line?;
        answer_line(rt, line.as_str(), &mut cases)?;
    }
    Ok(())
}

fn answer_line<C: Cases>(rt: &HostRuntime, line: &str, cases: &mut C) -> io::Result<()>
    requires { C.Ready cases.old }
    ensures { C.Ready cases.new }
{
    let mut text = Text::new(rt.alloc());
    match answer_words(rt, line, cases, &mut text) {
        Some(()) => print_text(rt, &text),
        None => Err(ErrorKind::InvalidInput.into()),
    }
}

fn answer_words<C: Cases>(
    rt: &HostRuntime,
    line: &str,
    cases: &mut C,
    text: &mut Text,
) -> Option<()>
    requires { C.Ready cases.old }
    ensures { C.Ready cases.new }
{
    let words = line.split_whitespace().collect::<Vec<_>>(rt.alloc()).ok()?;
    cases.answer(rt, words.as_slice(), text)
}

/// Prints a text. `OutOfMemory` where something of it was left out.
pub fn print_text(rt: &HostRuntime, text: &Text) -> io::Result<()> {
    match text.whole() {
        Some(text) => print!(rt; "{text}"),
        None => Err(ErrorKind::OutOfMemory.into()),
    }
}
