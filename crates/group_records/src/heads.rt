//! The head of a group's journal.
ghost use Rattle.std.specs.Prelude.{◌≡◌, ◌≤◌, ◌++◌, [], length, IfOk};
ghost use Rattle.gd_wire.specs.Readings.{Answers, from_start};
ghost use Rattle.group_records.specs.Fits.{HeadFits};
ghost use Rattle.group_records.specs.Texts.{head_text};
ghost use Rattle.group_records.specs.Readings.{head_record};

use crate::names::{append_name, group_name};
use gd_wire::{Reader, WireFault, WireWhat, fault, write_u32};
use group_terms::{GroupName, NoMemory, Octets};
use std::alloc::Global;

/// The kind of a head's record.
const HEAD: u8 = 0;

/// The version of its format.
const HEAD_VERSION: u8 = 1;

/// What a group is made with: the depth of its tree, its name, the SPI of its rekey datagrams (RFC 6407 section 5.3), and how far its epochs
/// and its sequence numbers may go.
#[derive(Clone, Copy, PartialEq, Eq)]
pub struct Head {
    pub depth: u8,
    pub name: GroupName,
    pub spi: [u8; 16],
    pub limit: u32,
}

/// Reads the head of a journal: a depth of 1 to 9, a limit that is not zero, a name of 1 to 32 octets, and nothing after it; else the first
/// fault.
#[tactic(auto, unfolding(crate::specs::Readings::head_record))]
pub fn read_head(body: &[u8]) -> Result<Head, WireFault>
    requires { length body.now ≤ 65536 }
    ensures answer { Answers (λ head. head) result (head_record (from_start 0 body.now)) }
    ensures shallow { IfOk result (λ head. 1 ≤ head.depth) }
    ensures not_deep { IfOk result (λ head. head.depth ≤ 9) }
    ensures limited { IfOk result (λ head. 1 ≤ head.limit) }
    ensures fits { IfOk result (λ head. HeadFits head) }
{
    let mut text = Reader::new(body, 0);
    text.due_octet(HEAD, WireWhat::Value)?;
    text.due_octet(HEAD_VERSION, WireWhat::Version)?;
    let depth_at = text.here();
    let depth = text.octet()?;
    if !(1..=9).contains(&depth) {
        return Err(fault(WireWhat::Value, depth_at));
    }
    let spi = text.array()?;
    let limit_at = text.here();
    let limit = text.long_number()?;
    if limit == 0 {
        return Err(fault(WireWhat::Value, limit_at));
    }
    let name = group_name(&mut text)?;
    text.end()?;
    Ok(Head {
        depth,
        name,
        spi,
        limit,
    })
}

/// The record of a head; `NoMemory` if out of memory for it.
pub fn write_head(alloc: Global, head: &Head) -> Result<Octets, NoMemory>
    ensures octets { IfOk result (λ text. text ≡ head_text head.now) }
    ensures few { IfOk result (λ text. length text ≤ 56) }
{
    let mut out = Octets::new(alloc);
    out.extend(&[HEAD, HEAD_VERSION, head.depth])?;
    out.extend(&head.spi)?;
    write_u32(head.limit, &mut out)?;
    append_name(head.name.text(), &mut out)?;
    Ok(out)
}
