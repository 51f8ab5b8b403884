//! Names in records: how many octets they have, and these.
ghost use Rattle.std.specs.Prelude.{◌≡◌, ◌+◌, ◌∷◌, ◌++◌, OnOk, length, IsTrue, ◌≤◌};
ghost use Rattle.gd_wire.specs.Readings.{Gives};
ghost use Rattle.group_records.specs.Texts.{named_text};
ghost use Rattle.group_records.specs.Readings.{name_size, member_name, group_name};

use gd_wire::{Reader, WireFault, WireWhat, fault};
use group_terms::{GroupName, MemberName, NoMemory, Octets};

/// Reads how many octets a name has, 1 to 32.
#[tactic(auto, unfolding(crate::specs::Readings::name_size))]
fn name_size(text: &mut Reader<'_>, at: u32) -> Result<usize, WireFault>
    ensures { Gives result text.new (name_size at text.old) }
{
    let size = text.octet()?;
    if !(1..=32).contains(&size) {
        return Err(fault(WireWhat::Value, at));
    }
    Ok(usize::from(size))
}

/// Reads the name of a member.
#[tactic(auto, unfolding(crate::specs::Readings::member_name))]
pub(crate) fn member_name(text: &mut Reader<'_>) -> Result<MemberName, WireFault>
    ensures { Gives result text.new (member_name text.old) }
{
    let at = text.here();
    let size = name_size(text, at)?;
    let octets = text.octets(size)?;
    let Some(name) = MemberName::read(octets) else {
        return Err(fault(WireWhat::Value, at));
    };
    Ok(name)
}

/// Reads the name of a group.
#[tactic(auto, unfolding(crate::specs::Readings::group_name))]
pub(crate) fn group_name(text: &mut Reader<'_>) -> Result<GroupName, WireFault>
    ensures { Gives result text.new (group_name text.old) }
{
    let at = text.here();
    let size = name_size(text, at)?;
    let octets = text.octets(size)?;
    let Some(name) = GroupName::read(octets) else {
        return Err(fault(WireWhat::Value, at));
    };
    Ok(name)
}

/// Appends a name of at most 255 octets.
pub(crate) fn append_name(name: &[u8], out: &mut Octets) -> Result<(), NoMemory>
    requires { length name.now ≤ 255 }
    ensures octets { OnOk result (out.new ≡ out.old ++ named_text name.now) }
    ensures long { OnOk result (length out.new ≡ length out.old + 1 + length name.now) }
{
    out.push(name.len() as u8)?;
    out.extend(name)
}
