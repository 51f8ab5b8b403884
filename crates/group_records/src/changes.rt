//! The changes of a batch in its record.
ghost use Rattle.std.specs.Prelude.{◌≡◌, ◌+◌, ◌*◌, ◌≤◌, ◌++◌, [], length, OnOk};
ghost use Rattle.gd_wire.specs.Readings.{Gives};
ghost use Rattle.group_records.specs.Texts.{change_text, changes_text};
ghost use Rattle.group_records.specs.Readings.{change, many};

use crate::names::{append_name, member_name};
use gd_wire::{Reader, WireFault};
use group_terms::{Batch, Change, MOST_CHANGES, NoMemory, Octets};

/// How a change begins that takes a member out, and one that lets somebody in.
const OUT: u8 = 0;

const IN: u8 = 1;

/// Reads a number of changes.
pub(crate) fn changes(count: u8, text: &mut Reader<'_>) -> Result<Batch, WireFault>
    requires { count ≤ MOST_CHANGES }
    ensures { Gives result text.new (many change count text.old) }
{
    let mut batch = Batch::new();
    for _ in 0..count {
        batch.push(change(text)?);
    }
    Ok(batch)
}

/// Reads a change.
#[tactic(auto, unfolding(crate::specs::Readings::change))]
fn change(text: &mut Reader<'_>) -> Result<Change, WireFault>
    ensures { Gives result text.new (change text.old) }
{
    let kind = text.due_kind(&[OUT, IN])?;
    let member = member_name(text)?;
    if kind == OUT {
        Ok(Change::Out { member })
    } else {
        Ok(Change::In { member })
    }
}

/// Appends changes.
pub(crate) fn append_changes(batch: &[Change], out: &mut Octets) -> Result<(), NoMemory>
    ensures octets { OnOk result (out.new ≡ out.old ++ changes_text batch.now) }
    ensures few { OnOk result (length out.new ≤ length out.old + 34 * length batch.now) }
{
    for change in batch {
        append_change(change, out)?;
    }
    Ok(())
}

fn append_change(change: &Change, out: &mut Octets) -> Result<(), NoMemory>
    ensures octets { OnOk result (out.new ≡ out.old ++ change_text change.now) }
    ensures few { OnOk result (length out.new ≤ length out.old + 34) }
{
    let kind = match change {
        Change::Out { .. } => OUT,
        Change::In { .. } => IN,
    };
    out.push(kind)?;
    append_name(change.member().text(), out)
}
