//! The lines of what a batch encrypts.
ghost use Rattle.std.specs.Prelude.{◌≡◌, ◌++◌, OnOk};
ghost use Rattle.std.specs.List.{flat_map};
ghost use Rattle.script_text.specs.Report.{key_text, wrap_line};

use crate::numbers::append_number;
use group_model::{KeyName, NoMemory, Octets, Wrap};

/// Puts a line for each wrap at the end of a text.
pub fn append_wraps(wraps: &[Wrap], out: &mut Octets) -> Result<(), NoMemory>
    ensures { OnOk result (out.new ≡ out.old ++ flat_map wrap_line wraps.now) }
{
    for wrap in wraps {
        append_wrap(wrap, out)?;
    }
    Ok(())
}

fn append_wrap(wrap: &Wrap, out: &mut Octets) -> Result<(), NoMemory>
    ensures { OnOk result (out.new ≡ out.old ++ wrap_line wrap.now) }
{
    out.extend(b"wrap ")?;
    append_key(&wrap.by, out)?;
    out.extend(b" ")?;
    append_key(&wrap.gives, out)?;
    out.extend(b"\n")
}

fn append_key(key: &KeyName, out: &mut Octets) -> Result<(), NoMemory>
    ensures { OnOk result (out.new ≡ out.old ++ key_text key.now) }
{
    match key {
        KeyName::Node { id, made } => {
            append_number(u32::from(id.number()), out)?;
            out.extend(b".")?;
            append_number(*made, out)
        }
        KeyName::Traffic { made } => {
            out.extend(b"traffic.")?;
            append_number(*made, out)
        }
        // No batch encrypts under such a key, but each key has a text.
        KeyName::Phase { member } => {
            out.extend(b"phase.")?;
            out.extend(member.text())
        }
    }
}
