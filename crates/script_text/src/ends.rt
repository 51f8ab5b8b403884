//! The line that ends a run.
ghost use Rattle.std.specs.Prelude.{◌≡◌, ◌++◌, OnOk, OnErr};
ghost use Rattle.script_text.specs.Report.{end_text};

use crate::numbers::append_number;
use crate::texts::append_text;
use group_model::{List, NoMemory, Octets};
use std::alloc::Global;

/// Puts the line that ends a run at the end of a text; `line` is the one at which the run ended; it is named at status 2.
/// Out of memory for that, the text stays as it was.
pub fn end_line(alloc: Global, status: u8, line: u32, out: &mut Octets) -> Result<(), NoMemory>
    ensures ok { OnOk result (out.new ≡ out.old ++ end_text status line) }
    ensures err { OnErr result (out.new ≡ out.old) }
{
    let mut text = List::new(alloc);
    append_end(status, line, &mut text)?;
    append_text(text, out)
}

#[tactic(auto, unfolding(crate::specs::Report::end_text))]
fn append_end(status: u8, line: u32, out: &mut Octets) -> Result<(), NoMemory>
    ensures { OnOk result (out.new ≡ out.old ++ end_text status line) }
{
    if status == 2 {
        out.extend(b"end 2 line ")?;
        append_number(line, out)?;
        out.extend(b"\n")?;
        return Ok(());
    }
    out.extend(b"end ")?;
    append_number(u32::from(status), out)?;
    out.extend(b"\n")
}
