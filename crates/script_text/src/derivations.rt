//! The line of a question whether members derive a traffic key.
ghost use Rattle.std.specs.Prelude.{◌≡◌, [], ◌∷◌, ◌++◌, OnOk};
ghost use Rattle.std.specs.List.{flat_map};
ghost use Rattle.script_text.specs.Report.{derive_text, derived_word};

use crate::numbers::append_number;
use group_model::{Answer, MemberName, MemberNames, NoMemory, Octets};

pub fn append_derive(
    epoch: u32,
    members: &MemberNames,
    answer: &Answer,
    out: &mut Octets,
) -> Result<(), NoMemory>
    ensures { OnOk result (out.new ≡ out.old ++ derive_text epoch members.now answer.now) }
{
    match answer {
        Answer::Derived { yes } => {
            out.extend(b"derive ")?;
            append_number(epoch, out)?;
            append_names(members.names(), out)?;
            append_derived(*yes, out)
        }
        _ => Ok(()),
    }
}

/// Puts the end of the line at the end of a text.
fn append_derived(yes: bool, out: &mut Octets) -> Result<(), NoMemory>
    ensures { OnOk result (out.new ≡ out.old ++ 32 ∷ (derived_word yes ++ 10 ∷ [])) }
{
    if yes {
        out.extend(b" yes\n")
    } else {
        out.extend(b" none\n")
    }
}

/// Puts names at the end of a text, each after a space.
pub fn append_names(names: &[MemberName], out: &mut Octets) -> Result<(), NoMemory>
    ensures { OnOk result (out.new ≡ out.old ++ flat_map (λ name. 32 ∷ name) names.now) }
{
    for name in names {
        out.extend(b" ")?;
        out.extend(name.text())?;
    }
    Ok(())
}
