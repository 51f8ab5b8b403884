//! The lines of blocks, and of looks at the epoch.
ghost use Rattle.std.specs.Prelude.{◌≡◌, ◌++◌, OnOk};
ghost use Rattle.script_text.specs.Report.{now_text, together2_text, together_text};

use crate::numbers::append_number;
use group_model::{Answer, NoMemory, Octets};

pub fn append_now(answer: &Answer, out: &mut Octets) -> Result<(), NoMemory>
    ensures { OnOk result (out.new ≡ out.old ++ now_text answer.now) }
{
    match answer {
        Answer::Pair { epoch, sequence } => {
            out.extend(b"now epoch ")?;
            append_number(*epoch, out)?;
            out.extend(b" sequence ")?;
            append_number(*sequence, out)?;
            out.extend(b"\n")
        }
        _ => Ok(()),
    }
}

pub fn append_together(lines: u32, answer: &Answer, out: &mut Octets) -> Result<(), NoMemory>
    ensures { OnOk result (out.new ≡ out.old ++ together_text lines answer.now) }
{
    match answer {
        Answer::Done => {
            out.extend(b"together ")?;
            append_number(lines, out)?;
            out.extend(b"\n")
        }
        _ => Ok(()),
    }
}

pub fn append_together2(answer: &Answer, out: &mut Octets) -> Result<(), NoMemory>
    ensures { OnOk result (out.new ≡ out.old ++ together2_text answer.now) }
{
    match answer {
        Answer::Done => out.extend(b"together done\n"),
        _ => Ok(()),
    }
}
