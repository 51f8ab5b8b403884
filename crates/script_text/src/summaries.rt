//! The line that sums up a soak.
ghost use Rattle.std.specs.Prelude.{◌≡◌, ◌++◌, OnOk, OnErr};
ghost use Rattle.std.specs.Fmt.{decimal};
ghost use Rattle.script_text.specs.Private.Tallies.{tallied};
ghost use Rattle.script_text.specs.Summary.{refused, summary_line, summary_text, told_by, was_refused};

use crate::numbers::append_place;
use crate::tallies::Tally;
use crate::texts::append_text;
use group_model::{Answer, Entry, List, NoMemory, Octets};
use std::alloc::Global;

/// Puts the line that sums up a soak at the end of a text: its number, the last epoch and sequence number of its history, how many members there are then, how
/// many entries were refused, and how many of the members have the traffic key of the last epoch. Out of memory for that, the text stays as it was.
#[tactic(auto, unfolding(crate::specs::Summary::summary_text, crate::specs::Summary::told_by))]
pub fn soak_summary(
    alloc: Global,
    number: u64,
    history: &[Entry],
    out: &mut Octets,
) -> Result<(), NoMemory>
    ensures ok { OnOk result (out.new ≡ out.old ++ summary_text number history.now) }
    ensures err { OnErr result (out.new ≡ out.old) }
{
    let mut tally = Tally::new(alloc);
    tally.take_all(history)?;
    let mut text = List::new(alloc);
    append_summary(number, &tally, count_refused(history), &mut text)?;
    append_text(text, out)
}

fn append_summary(
    number: u64,
    tally: &Tally,
    refusals: u64,
    out: &mut Octets,
) -> Result<(), NoMemory>
    ensures { OnOk result (out.new ≡ out.old ++ summary_line number (tallied tally.now) refusals) }
{
    append_named(b"soak ", number, out)?;
    append_named(b" epochs ", u64::from(tally.epoch), out)?;
    append_named(b" sequence ", u64::from(tally.sequence), out)?;
    append_named(b" members ", tally.members(), out)?;
    append_named(b" refused ", refusals, out)?;
    append_named(b" agreed ", tally.agreed(), out)?;
    out.extend(b"\n")
}

/// What is counted, with the spaces about it, and its number.
fn append_named(word: &[u8], number: u64, out: &mut Octets) -> Result<(), NoMemory>
    ensures { OnOk result (out.new ≡ out.old ++ (word.now ++ decimal number)) }
{
    out.extend(word)?;
    append_place(number, out)
}

/// How many entries were refused.
fn count_refused(history: &[Entry]) -> u64
    ensures { result ≡ refused history.now }
{
    let mut refusals = 0;
    for entry in history {
        if was_refused(entry) {
            refusals += 1;
        }
    }
    refusals
}

fn was_refused(entry: &Entry) -> bool
    ensures { result ≡ was_refused entry.now }
{
    match entry.answer {
        Answer::Refused { .. } => true,
        Answer::PushRefused { .. } => true,
        _ => false,
    }
}
