//! The line of a request that is refused.
ghost use Rattle.std.specs.Prelude.{◌≡◌, ◌++◌, OnOk};
ghost use Rattle.std.specs.Fmt.{decimal};
ghost use Rattle.script_text.specs.Report.{counter_text, refusal_line, why_text};

use crate::numbers::{append_number, append_place};
use group_model::{Counter, NoMemory, Octets, Refusal};

/// Puts the line that reports a refusal at the end of a text; `subject` is whose request it was.
pub fn append_refusal(subject: &[u8], why: &Refusal, out: &mut Octets) -> Result<(), NoMemory>
    ensures { OnOk result (out.new ≡ out.old ++ refusal_line subject.now why.now) }
{
    out.extend(subject)?;
    out.extend(b" refused ")?;
    append_why(why, out)?;
    out.extend(b"\n")
}

fn append_why(why: &Refusal, out: &mut Octets) -> Result<(), NoMemory>
    ensures { OnOk result (out.new ≡ out.old ++ why_text why.now) }
{
    match why {
        Refusal::NeedsReopen => out.extend(b"needs-reopen"),
        Refusal::Malformed { .. } => out.extend(b"malformed"),
        Refusal::UnknownPeer => out.extend(b"unknown-peer"),
        Refusal::WrongStep => out.extend(b"wrong-step"),
        Refusal::BadHash { .. } => out.extend(b"bad-hash"),
        Refusal::WrongGroup => out.extend(b"wrong-group"),
        Refusal::Denied { rule } => append_count(b"denied ", *rule, out),
        Refusal::NotMember => out.extend(b"not-member"),
        Refusal::AlreadyPending => out.extend(b"already-pending"),
        Refusal::TreeFull { held } => append_count(b"tree-full ", *held, out),
        Refusal::BatchFull { pending } => append_count(b"batch-full ", *pending, out),
        Refusal::Spent { counter, at } => {
            out.extend(b"spent ")?;
            append_spent(*counter, *at, out)
        }
        Refusal::DiskFault => out.extend(b"disk-fault"),
        Refusal::PhaseTaken => out.extend(b"phase-taken"),
        Refusal::PhaseFull { held } => append_count(b"phase-full ", *held, out),
        Refusal::NotAJournal { at } => {
            out.extend(b"not-a-journal ")?;
            append_place(*at, out)
        }
        Refusal::NoMemory => out.extend(b"no-memory"),
    }
}

/// What is counted, and its number.
fn append_spent(counter: Counter, at: u32, out: &mut Octets) -> Result<(), NoMemory>
    ensures { OnOk result (out.new ≡ out.old ++ (counter_text counter ++ decimal at)) }
{
    match counter {
        Counter::Epoch => append_count(b"epoch ", at, out),
        Counter::Sequence => append_count(b"sequence ", at, out),
    }
}

/// A word, with the space after it, and a number.
fn append_count(word: &[u8], number: u32, out: &mut Octets) -> Result<(), NoMemory>
    ensures { OnOk result (out.new ≡ out.old ++ (word.now ++ decimal number)) }
{
    out.extend(word)?;
    append_number(number, out)
}
