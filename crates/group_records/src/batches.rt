//! The record of a batch.
ghost use Rattle.std.specs.Prelude.{◌≡◌, ◌+◌, ◌*◌, ◌≤◌, ◌++◌, length, IfOk};
ghost use Rattle.gd_wire.specs.Readings.{from_start};
ghost use Rattle.group_records.specs.Texts.{batch_text};
ghost use Rattle.group_records.specs.Readings.{batch_record, BatchAnswers};

use crate::changes::{append_changes, changes};
use crate::faults::RecordFault;
use crate::nodes::{append_nodes, append_traffic, nodes, traffic};
use gd_wire::{Reader, WireWhat, fault, write_u16, write_u32};
use group_terms::{Batch, BatchValues, MOST_CHANGES, NoMemory, Octets};
use std::alloc::Global;

/// The kind of a batch's record.
const BATCH: u8 = 1;

/// The version of its format.
const BATCH_VERSION: u8 = 1;

/// A batch with the epoch that it made, the number of the last push after it, and the values of the keys that it made.
#[derive(Drop)]
pub struct Stored {
    pub batch: Batch,
    pub epoch: u32,
    pub sequence: u32,
    pub values: BatchValues,
}

/// Reads the record of a batch: at most 32 changes, of members by names of their grammar, values of positions, and that of a traffic key
/// whose SPI has its highest bit set, and nothing after it; else the first fault. `NoMemory` if out of memory for the values. A record has at
/// most 65,536 octets.
#[tactic(auto, unfolding(crate::specs::Readings::batch_record))]
pub fn read_batch(alloc: Global, body: &[u8]) -> Result<Stored, RecordFault>
    requires { length body.now ≤ 65536 }
    ensures answer { BatchAnswers result (batch_record (from_start 0 body.now)) }
    ensures few { IfOk result (λ stored. length stored.values.nodes ≤ 65535) }
{
    let mut text = Reader::new(body, 0);
    text.due_octet(BATCH, WireWhat::Value)?;
    text.due_octet(BATCH_VERSION, WireWhat::Version)?;
    let epoch = text.long_number()?;
    let sequence = text.long_number()?;
    let at = text.here();
    let count = text.octet()?;
    if usize::from(count) > MOST_CHANGES {
        return Err(fault(WireWhat::Value, at).into());
    }
    let batch = changes(count, &mut text)?;
    let count = text.number()?;
    let nodes = nodes(alloc, count, &mut text)?;
    let traffic = traffic(&mut text)?;
    text.end()?;
    Ok(Stored {
        batch,
        epoch,
        sequence,
        values: BatchValues { nodes, traffic },
    })
}

/// The record of a batch, with the values of at most 65,535 positions; `NoMemory` if out of memory for it.
pub fn write_batch(
    alloc: Global,
    batch: &Batch,
    epoch: u32,
    sequence: u32,
    values: &BatchValues,
) -> Result<Octets, NoMemory>
    requires { length values.now.nodes ≤ 65535 }
    ensures octets { IfOk result (λ text. text ≡ batch_text batch.now epoch sequence values.now) }
    ensures few { IfOk result (λ text. length text ≤ 1153 + 34 * length values.now.nodes) }
{
    let changes = batch.changes();
    let nodes = values.nodes.as_slice();
    let mut out = Octets::new(alloc);
    out.extend(&[BATCH, BATCH_VERSION])?;
    write_u32(epoch, &mut out)?;
    write_u32(sequence, &mut out)?;
    out.push(changes.len() as u8)?;
    append_changes(changes, &mut out)?;
    write_u16(nodes.len() as u16, &mut out)?;
    append_nodes(nodes, &mut out)?;
    append_traffic(&values.traffic, &mut out)?;
    Ok(out)
}
