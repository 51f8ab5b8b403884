//! The lines that show a group.
ghost use Rattle.std.specs.Prelude.{◌≡◌, ◌++◌, OnOk};
ghost use Rattle.std.specs.List.{flat_map};
ghost use Rattle.script_text.specs.Report.{line_with, counts_with, seen_counts, group_line, leaf_line, show_text};

use crate::numbers::{append_number, append_place};
use crate::refusals::append_refusal;
use group_model::{Answer, GroupSeen, MemberName, NoMemory, Octets, Standing};

/// Puts an epoch, the number of the last push and how many members there are at the end of a text.
pub fn append_counts(
    epoch: u32,
    sequence: u32,
    members: u64,
    out: &mut Octets,
) -> Result<(), NoMemory>
    ensures { OnOk result (out.new ≡ out.old ++ line_with (counts_with epoch sequence members)) }
{
    out.extend(b"epoch ")?;
    append_number(epoch, out)?;
    out.extend(b" sequence ")?;
    append_number(sequence, out)?;
    out.extend(b" members ")?;
    append_place(members, out)?;
    out.extend(b"\n")
}

/// Puts the epoch of a group, the number of its last push and how many members it has at the end of a text.
pub fn append_seen(group: &GroupSeen, out: &mut Octets) -> Result<(), NoMemory>
    ensures { OnOk result (out.new ≡ out.old ++ line_with (seen_counts group.now)) }
{
    let members = group.members.len() as u64;
    append_counts(group.epoch, group.sequence, members, out)
}

pub fn append_show(answer: &Answer, out: &mut Octets) -> Result<(), NoMemory>
    ensures { OnOk result (out.new ≡ out.old ++ show_text answer.now) }
{
    match answer {
        Answer::Shown { group } => {
            append_group(group, out)?;
            append_leaves(group.members.as_slice(), out)
        }
        Answer::Refused { why } => append_refusal(b"show", why, out),
        _ => Ok(()),
    }
}

fn append_group(group: &GroupSeen, out: &mut Octets) -> Result<(), NoMemory>
    ensures { OnOk result (out.new ≡ out.old ++ group_line group.now) }
{
    out.extend(b"group ")?;
    append_seen(group, out)
}

/// Puts a line for each member at the end of a text.
fn append_leaves(members: &[Standing], out: &mut Octets) -> Result<(), NoMemory>
    ensures { OnOk result (out.new ≡ out.old ++ flat_map leaf_line members.now) }
{
    for standing in members {
        append_leaf(standing, out)?;
    }
    Ok(())
}

fn append_leaf(standing: &Standing, out: &mut Octets) -> Result<(), NoMemory>
    ensures { OnOk result (out.new ≡ out.old ++ leaf_line standing.now) }
{
    let member: MemberName = standing.member;
    out.extend(b"leaf ")?;
    append_number(u32::from(standing.leaf.number()), out)?;
    out.extend(b" ")?;
    out.extend(member.text())?;
    out.extend(b"\n")
}
