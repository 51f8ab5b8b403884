//! What the types of a head and of a batch say of them, so that their records are read as they were written.
ghost use Rattle.std.specs.Prelude.{◌≤◌, length, All};
ghost use Rattle.gd_wire.specs.Readings.{octet_at};
ghost use Rattle.group_records.specs.Fits.{HeadFits, IsNamed, NodeFits, TrafficFits, BatchFits};

use crate::heads::Head;
use gd_wire::{prove_are_octets, prove_has_four_octets};
use group_terms::{Batch, BatchValues, Change, Drawn, TrafficValue};

/// A head fits whose depth and limit do.
pub fn prove_head_fits(head: &Head)
    requires shallow { 1 ≤ head.now.depth }
    requires not_deep { head.now.depth ≤ 9 }
    requires limited { 1 ≤ head.now.limit }
    ensures { HeadFits head.now }
{
    prove_are_octets(&head.spi);
    prove_has_four_octets(head.limit);
    head.name.text();
}

/// A batch with values of at most 65,535 positions fits, if the SPI of its traffic key has its highest bit set.
pub fn prove_batch_fits(batch: &Batch, epoch: u32, sequence: u32, values: &BatchValues)
    requires { length values.now.nodes ≤ 65535 }
    ensures { 128 ≤ octet_at values.now.traffic.spi 0 → BatchFits batch.now epoch sequence values.now }
{
    prove_changes_fit(batch.changes());
    prove_has_four_octets(epoch);
    prove_has_four_octets(sequence);
    prove_nodes_fit(values.nodes.as_slice());
    prove_traffic_fits(&values.traffic);
}

fn prove_changes_fit(changes: &[Change])
    ensures { All IsNamed changes.now }
{
    for change in changes {
        prove_change_fits(change);
    }
}

/// A change names a member.
fn prove_change_fits(change: &Change)
    ensures { IsNamed change.now }
{
    change.member().text();
}

fn prove_nodes_fit(nodes: &[Drawn])
    ensures { All NodeFits nodes.now }
{
    for node in nodes {
        prove_node_fits(node);
    }
}

fn prove_node_fits(node: &Drawn)
    ensures { NodeFits node.now }
{
    node.id.number();
    prove_are_octets(&node.value.iv);
    prove_are_octets(&node.value.key);
}

fn prove_traffic_fits(traffic: &TrafficValue)
    ensures { 128 ≤ octet_at traffic.now.spi 0 → TrafficFits traffic.now }
{
    prove_are_octets(&traffic.cipher_key);
    prove_are_octets(&traffic.integrity_key);
    prove_are_octets(&traffic.spi);
}
