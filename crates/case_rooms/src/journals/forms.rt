//! Records of a group's journal.
ghost use Rattle.std.specs.Prelude.{◌≤◌, length};

use case_lines::Text;
use group_records::{RecordFault, read_batch, read_head, write_batch, write_head};
use group_terms::{BatchValues, Change, NoMemory, Octets};
use std::alloc::Global;
use tree_store::{Head, Stored};

/// The most positions for which a record has values.
const MOST: usize = 65_535;

/// What is written of the head that is read.
pub fn head(alloc: Global, body: &[u8], text: &mut Text)
    requires { length body.now ≤ 65536 }
{
    match read_head(body) {
        Ok(head) => add_head(alloc, &head, text),
        Err(fault) => text.add_value(&fault),
    }
}

/// What is written of the batch that is read.
pub fn batch(alloc: Global, body: &[u8], text: &mut Text)
    requires { length body.now ≤ 65536 }
{
    match read_batch(alloc, body) {
        Ok(stored) => add_batch(alloc, &stored, text),
        Err(RecordFault::Malformed { fault }) => text.add_value(&fault),
        Err(RecordFault::NoMemory) => text.lose(),
    }
}

pub fn add_head(alloc: Global, head: &Head, text: &mut Text) {
    add_written(write_head(alloc, head), text);
}

pub fn add_batch(alloc: Global, stored: &Stored, text: &mut Text) {
    if stored.values.nodes.len() > MOST {
        return text.lose();
    }
    let (epoch, sequence) = (stored.epoch, stored.sequence);
    add_written(
        write_batch(alloc, &stored.batch, epoch, sequence, &stored.values),
        text,
    );
}

fn add_written(written: Result<Octets, NoMemory>, text: &mut Text) {
    match written {
        Ok(written) => text.add_hex(written.as_slice()),
        Err(NoMemory) => text.lose(),
    }
}

/// The fields of the head that is read, each after its name.
pub fn head_fields(body: &[u8], text: &mut Text)
    requires { length body.now ≤ 65536 }
{
    match read_head(body) {
        Ok(head) => {
            text.add_named("depth ", u64::from(head.depth));
            text.add_named(" limit ", u64::from(head.limit));
            text.add(" name ");
            text.add_letters(head.name.text());
            text.add(" spi");
            text.add_octets(&[&head.spi]);
        }
        Err(fault) => text.add_value(&fault),
    }
}

/// The fields of the batch that is read, each after its name.
pub fn batch_fields(alloc: Global, body: &[u8], text: &mut Text)
    requires { length body.now ≤ 65536 }
{
    match read_batch(alloc, body) {
        Ok(stored) => {
            add_batch_fields(&stored, text);
            drop(stored);
        }
        Err(RecordFault::Malformed { fault }) => text.add_value(&fault),
        Err(RecordFault::NoMemory) => text.lose(),
    }
}

fn add_batch_fields(stored: &Stored, text: &mut Text) {
    text.add_named("epoch ", u64::from(stored.epoch));
    text.add_named(" sequence ", u64::from(stored.sequence));
    for change in stored.batch.changes() {
        text.add(match change {
            Change::In { .. } => " in ",
            Change::Out { .. } => " out ",
        });
        text.add_letters(change.member().text());
    }
    add_values(&stored.values, text);
}

/// Each position with its IV and key, and then the keys of the traffic with their SPI.
fn add_values(values: &BatchValues, text: &mut Text) {
    text.add(" values");
    for node in values.nodes.as_slice() {
        text.add_numbers(&[u64::from(node.id.number())]);
        text.add_octets(&[&node.value.iv, &node.value.key]);
    }
    let traffic = &values.traffic;
    text.add_octets(&[&traffic.cipher_key, &traffic.integrity_key, &traffic.spi]);
}
