//! The lines of openings and stops.
ghost use Rattle.std.specs.Prelude.{◌≡◌, ◌++◌, OnOk};
ghost use Rattle.script_text.specs.Report.{create_text, begin_text, halt_text, reopen_text, found_line, found_again_line};

use crate::numbers::append_number;
use crate::pushes::append_pair;
use crate::refusals::append_refusal;
use crate::seen::append_seen;
use group_model::{Answer, GroupSeen, NoMemory, Octets};

pub fn append_create(depth: u8, answer: &Answer, out: &mut Octets) -> Result<(), NoMemory>
    ensures { OnOk result (out.new ≡ out.old ++ create_text depth answer.now) }
{
    match answer {
        Answer::Opened { .. } => {
            out.extend(b"new depth ")?;
            append_number(u32::from(depth), out)?;
            out.extend(b"\n")
        }
        Answer::Refused { why } => append_refusal(b"new", why, out),
        _ => Ok(()),
    }
}

pub fn append_begin(answer: &Answer, out: &mut Octets) -> Result<(), NoMemory>
    ensures { OnOk result (out.new ≡ out.old ++ begin_text answer.now) }
{
    match answer {
        Answer::Opened { group, resent } => {
            append_found(group, out)?;
            append_pair(resent, out)
        }
        Answer::Refused { why } => append_refusal(b"open", why, out),
        _ => Ok(()),
    }
}

fn append_found(group: &GroupSeen, out: &mut Octets) -> Result<(), NoMemory>
    ensures { OnOk result (out.new ≡ out.old ++ found_line group.now) }
{
    out.extend(b"open depth ")?;
    append_number(u32::from(group.depth), out)?;
    out.extend(b" ")?;
    append_seen(group, out)
}

pub fn append_halt(answer: &Answer, out: &mut Octets) -> Result<(), NoMemory>
    ensures { OnOk result (out.new ≡ out.old ++ halt_text answer.now) }
{
    match answer {
        Answer::Done => out.extend(b"halted\n"),
        _ => Ok(()),
    }
}

pub fn append_reopen(answer: &Answer, out: &mut Octets) -> Result<(), NoMemory>
    ensures { OnOk result (out.new ≡ out.old ++ reopen_text answer.now) }
{
    match answer {
        Answer::Opened { group, resent } => {
            append_found_again(group, out)?;
            append_pair(resent, out)
        }
        Answer::Refused { why } => append_refusal(b"reopen", why, out),
        _ => Ok(()),
    }
}

fn append_found_again(group: &GroupSeen, out: &mut Octets) -> Result<(), NoMemory>
    ensures { OnOk result (out.new ≡ out.old ++ found_again_line group.now) }
{
    out.extend(b"reopened ")?;
    append_seen(group, out)
}
