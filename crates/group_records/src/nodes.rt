//! The values of a batch in its record.
ghost use Rattle.std.specs.Prelude.{◌≡◌, ◌+◌, ◌*◌, ◌++◌, [], length, IfOk, OnOk};
ghost use Rattle.gd_wire.specs.Readings.{Gives};
ghost use Rattle.group_records.specs.Texts.{node_text, nodes_text, traffic_text};
ghost use Rattle.group_records.specs.Readings.{many, node, traffic, NodesGive};

use crate::faults::RecordFault;
use gd_wire::{Reader, WireFault, WireWhat, fault, write_u16};
use group_terms::{
    Drawn, IV_OCTETS, KEY_OCTETS, List, LkhId, NoMemory, NodeValue, Octets, TrafficValue,
};
use std::alloc::Global;

/// How many octets the value of a position has: its number, an IV and a key.
const NODE_OCTETS: usize = 2 + IV_OCTETS + KEY_OCTETS;

/// Reads a number of values of positions.
pub(crate) fn nodes(
    alloc: Global,
    count: u16,
    text: &mut Reader<'_>,
) -> Result<List<Drawn>, RecordFault>
    ensures gives { NodesGive result text.new (many node count text.old) }
    ensures count { IfOk result (λ drawn. length drawn ≡ count) }
{
    let whole = text.left().len() / NODE_OCTETS;
    let mut drawn = List::with_room(alloc, whole.min(usize::from(count)))?;
    for _ in 0..count {
        drawn.push(node(text)?)?;
    }
    Ok(drawn)
}

/// Reads the value of a position.
#[tactic(auto, unfolding(crate::specs::Readings::node))]
fn node(text: &mut Reader<'_>) -> Result<Drawn, WireFault>
    ensures { Gives result text.new (node text.old) }
{
    let at = text.here();
    let Some(id) = LkhId::new(text.number()?) else {
        return Err(fault(WireWhat::Value, at));
    };
    let iv = text.octets(IV_OCTETS)?;
    let key = text.octets(KEY_OCTETS)?;
    let value = NodeValue {
        iv: block(iv),
        key: block(key),
    };
    Ok(Drawn { id, value })
}

/// As many octets as an IV or a key has, as an array.
fn block(octets: &[u8]) -> [u8; 16]
    requires { length octets.now ≡ 16 }
    ensures { result ≡ octets.now }
{
    *octets.first_chunk().unwrap()
}

/// Reads the value of a traffic key, whose SPI has its highest bit set.
#[tactic(auto, unfolding(crate::specs::Readings::traffic))]
pub(crate) fn traffic(text: &mut Reader<'_>) -> Result<TrafficValue, WireFault>
    ensures { Gives result text.new (traffic text.old) }
{
    let cipher_key = text.array()?;
    let integrity_key = text.array()?;
    let at = text.here();
    let spi: [u8; 4] = text.array()?;
    if spi[0] < 0x80 {
        return Err(fault(WireWhat::Value, at));
    }
    Ok(TrafficValue {
        cipher_key,
        integrity_key,
        spi,
    })
}

/// Appends values of positions.
pub(crate) fn append_nodes(nodes: &[Drawn], out: &mut Octets) -> Result<(), NoMemory>
    ensures octets { OnOk result (out.new ≡ out.old ++ nodes_text nodes.now) }
    ensures long { OnOk result (length out.new ≡ length out.old + 34 * length nodes.now) }
{
    for node in nodes {
        append_node(node, out)?;
    }
    Ok(())
}

fn append_node(node: &Drawn, out: &mut Octets) -> Result<(), NoMemory>
    ensures octets { OnOk result (out.new ≡ out.old ++ node_text node.now) }
    ensures long { OnOk result (length out.new ≡ length out.old + 34) }
{
    write_u16(node.id.number(), out)?;
    out.extend(&node.value.iv)?;
    out.extend(&node.value.key)
}

/// Appends the value of a traffic key.
pub(crate) fn append_traffic(traffic: &TrafficValue, out: &mut Octets) -> Result<(), NoMemory>
    ensures octets { OnOk result (out.new ≡ out.old ++ traffic_text traffic.now) }
    ensures long { OnOk result (length out.new ≡ length out.old + 52) }
{
    out.extend(&traffic.cipher_key)?;
    out.extend(&traffic.integrity_key)?;
    out.extend(&traffic.spi)
}
