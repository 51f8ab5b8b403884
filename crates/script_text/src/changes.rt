//! The lines of leaves and batches.
ghost use Rattle.std.specs.Prelude.{◌≡◌, ◌++◌, OnOk};
ghost use Rattle.script_text.specs.Report.{leave_text, batch_text, epoch_line};

use crate::messages::append_replies;
use crate::pushes::append_pair;
use crate::refusals::append_refusal;
use crate::seen::append_counts;
use crate::wraps::append_wraps;
use group_model::{Answer, MemberName, NoMemory, Octets, Output};

pub fn append_leave(member: &MemberName, answer: &Answer, out: &mut Octets) -> Result<(), NoMemory>
    ensures { OnOk result (out.new ≡ out.old ++ leave_text member.now answer.now) }
{
    match answer {
        Answer::Done => {
            out.extend(member.text())?;
            out.extend(b" leaving\n")
        }
        Answer::Refused { why } => append_refusal(member.text(), why, out),
        _ => Ok(()),
    }
}

pub fn append_batch(answer: &Answer, out: &mut Octets) -> Result<(), NoMemory>
    ensures { OnOk result (out.new ≡ out.old ++ batch_text answer.now) }
{
    match answer {
        Answer::Batched { output } => {
            append_epoch(output, out)?;
            append_wraps(output.wraps.as_slice(), out)?;
            append_pair(&output.pushes, out)?;
            append_replies(output.replies.as_slice(), out)
        }
        Answer::Refused { why } => append_refusal(b"batch", why, out),
        _ => Ok(()),
    }
}

fn append_epoch(output: &Output, out: &mut Octets) -> Result<(), NoMemory>
    ensures { OnOk result (out.new ≡ out.old ++ epoch_line output.now) }
{
    let members = u64::from(output.members);
    append_counts(output.epoch, output.sequence, members, out)
}
