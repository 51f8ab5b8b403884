//! How a run ends: its last line, and what is left of it.
ghost use Rattle.std.specs.Prelude.{◌≡◌, []};
ghost use Rattle.run_report.specs.declared.endings.Ending.TheVariants.{NoGroup};
ghost use Rattle.run_report.specs.Ends.{RefusalEnds, ScriptEnds, UnopenedEnds, due_after};
ghost use Rattle.run_report.specs.Reports.{LastLineEnds, SummaryEnds};

use crate::endings::Ending;
use crate::report_sink::{put_lines, report};
use crate::stops::Stop;
use gd_edges::{Failed, Sink};
use group_model::{Entry, List, NoMemory};
use script_text::{end_line, soak_summary};
use std::alloc::Global;

/// What is left of a run: how it ended, the history of its group, and the disk.
#[derive(Drop)]
pub struct Finished<D> {
    pub ending: Ending,
    pub history: List<Entry>,
    pub disk: D,
}

/// Ends a run whose script was followed to its end, or stopped at this line.
pub fn end_script<D, K: Sink>(
    alloc: Global,
    followed: Result<(), Stop>,
    line: u32,
    history: List<Entry>,
    disk: D,
    out: &mut K,
) -> Finished<D>
    ensures history { result.history ≡ history }
    ensures disk { result.disk ≡ disk }
    ensures ends { ScriptEnds followed line result.ending (K.shows out.old) (K.shows out.new) }
{
    let ending = put_end(alloc, followed, line, out);
    Finished {
        ending,
        history,
        disk,
    }
}

/// Puts the last line that is due after a script, unless its report broke off; how the run ended then.
fn put_end<K: Sink>(alloc: Global, followed: Result<(), Stop>, line: u32, out: &mut K) -> Ending
    ensures { ScriptEnds followed line result (K.shows out.old) (K.shows out.new) }
{
    match followed {
        Ok(()) => put_last_line(alloc, Ending::Whole, out),
        Err(Stop::Line) => put_last_line(alloc, Ending::BadLine { line }, out),
        Err(Stop::Source) => put_last_line(alloc, Ending::Source, out),
        Err(Stop::Memory) => put_last_line(alloc, Ending::Memory, out),
        Err(Stop::Sink) => Ending::Sink,
        Err(Stop::Unreported) => Ending::Memory,
    }
}

/// Reports that no group was opened.
pub fn end_unopened<D, K: Sink>(
    alloc: Global,
    history: List<Entry>,
    disk: D,
    out: &mut K,
) -> Finished<D>
    ensures history { result.history ≡ history }
    ensures disk { result.disk ≡ disk }
    ensures ends { UnopenedEnds history result.ending (K.shows out.old) (K.shows out.new) }
{
    let ending = match history.as_slice().first() {
        Some(entry) => report_refusal(alloc, entry, out),
        None => put_last_line(alloc, Ending::Memory, out),
    };
    Finished {
        ending,
        history,
        disk,
    }
}

/// Reports the refusal of an opening, and puts the last line that is due.
fn report_refusal<K: Sink>(alloc: Global, entry: &Entry, out: &mut K) -> Ending
    ensures { RefusalEnds entry.now result (K.shows out.old) (K.shows out.new) }
{
    match report(alloc, entry, out) {
        Ok(()) => put_last_line(alloc, due_after(entry), out),
        Err(Stop::Sink) => Ending::Sink,
        Err(Stop::Line | Stop::Source | Stop::Memory | Stop::Unreported) => Ending::Memory,
    }
}

/// The ending that is due where an opening was refused.
fn due_after(entry: &Entry) -> Ending
    ensures { result ≡ due_after entry.now.answer }
{
    if entry.answer.ran_out() {
        Ending::Memory
    } else {
        Ending::NotOpened
    }
}

/// Ends a run of words that ask for no group: the report is the last line.
pub fn end_without_group<D, K: Sink>(alloc: Global, disk: D, out: &mut K) -> Finished<D>
    ensures history { result.history ≡ [] }
    ensures disk { result.disk ≡ disk }
    ensures ends { LastLineEnds NoGroup result.ending (K.shows out.old) (K.shows out.new) }
{
    let ending = put_last_line(alloc, Ending::NoGroup, out);
    Finished {
        ending,
        history: List::new(alloc),
        disk,
    }
}

/// Ends the soak of a number, whose script was run without a report: puts the summary of its history, and the last line of the ending that was due.
pub fn end_soak<D, K: Sink>(
    alloc: Global,
    number: u64,
    run: Finished<D>,
    out: &mut K,
) -> Finished<D>
    ensures history { result.history ≡ run.history }
    ensures disk { result.disk ≡ run.disk }
    ensures ends { SummaryEnds number run.history run.ending result.ending (K.shows out.old) (K.shows out.new) }
{
    let Finished {
        ending: due,
        history,
        disk,
    } = run;
    let ending = put_summary(alloc, number, history.as_slice(), due, out);
    Finished {
        ending,
        history,
        disk,
    }
}

/// Puts the summary of a soak, and the last line that is due; how the run ended then.
fn put_summary<K: Sink>(
    alloc: Global,
    number: u64,
    history: &[Entry],
    due: Ending,
    out: &mut K,
) -> Ending
    ensures { SummaryEnds number history.now due result (K.shows out.old) (K.shows out.new) }
{
    let mut text = List::new(alloc);
    match soak_summary(alloc, number, history, &mut text) {
        Ok(()) => {}
        Err(NoMemory) => return Ending::Memory,
    }
    match put_lines(text.as_slice(), out) {
        Ok(()) => put_last_line(alloc, due, out),
        Err(Failed) => Ending::Sink,
    }
}

/// Puts the last line of the ending that is due; how the run ended then.
fn put_last_line<K: Sink>(alloc: Global, due: Ending, out: &mut K) -> Ending
    ensures { LastLineEnds due result (K.shows out.old) (K.shows out.new) }
{
    let mut text = List::new(alloc);
    match end_line(alloc, due.status(), due.line(), &mut text) {
        Ok(()) => {}
        Err(NoMemory) => return Ending::Memory,
    }
    match put_lines(text.as_slice(), out) {
        Ok(()) => due,
        Err(Failed) => Ending::Sink,
    }
}
