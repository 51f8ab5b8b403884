//! Framing that is written, and bodies of payloads that are read.
ghost use Rattle.std.specs.Prelude.{◌+◌, ◌≤◌, length};

use crate::bodies::{kd, policies, wraps};
use crate::words::{add_number, add_shown, number_of};
use case_lines::Text;
use gd_wire::{
    Part, read_header, write_header, write_identification, write_long, write_padding,
    write_payload, write_payload_head, write_sequence, write_short,
};
use group_terms::{NoMemory, Octets, WireFault};
use kd_wire::update_kd_size;
use std::alloc::Global;

/// Writes what a word names, of two numbers and octets.
pub fn write(what: &str, numbers: &[&str], octets: &[u8], out: &mut Octets) -> Option<()>
    requires { length octets.now ≤ 65507 }
{
    let [first, second] = numbers else {
        return None;
    };
    let (first, second) = (number_of(first), number_of(second));
    let [_, _, _, kind] = first.to_be_bytes();
    let [_, _, high, low] = second.to_be_bytes();
    let written = match what {
        "payload" => write_payload(kind, octets, out),
        "head" => write_payload_head(kind, (second % 65_532) as usize, out),
        "short" => write_short(u16::from(kind), u16::from_be_bytes([high, low]), out),
        "long" => write_long(u16::from(kind), octets, out),
        "sequence" => write_sequence(first, out),
        "identification" => write_identification(kind, octets, out),
        _ => pad(octets, out),
    };
    written.ok()
}

fn pad(octets: &[u8], out: &mut Octets) -> Result<(), NoMemory> {
    out.extend(octets)?;
    if out.len() < 28 {
        return Err(NoMemory);
    }
    write_padding(out)
}

/// Reads what a word names.
pub fn read(
    alloc: Global,
    what: &str,
    numbers: &[&str],
    octets: &[u8],
    out: &mut Octets,
    text: &mut Text,
) -> Option<()>
    requires { length octets.now ≤ 65507 }
{
    let [number] = numbers else {
        return None;
    };
    let [_, _, high, low] = number_of(number).to_be_bytes();
    let number = u16::from_be_bytes([high, low]);
    match what {
        "header" => header(alloc, low, octets, out, text),
        "part" => part(alloc, low, octets, text),
        "sa" => policies(alloc, number, octets, out, text),
        "kd" => kd(alloc, number, octets, out, text),
        "wraps" => wraps(alloc, octets, out, text),
        _ => text.add_number(update_kd_size(usize::from(number) % 1_000) as u64),
    }
    Some(())
}

fn header(alloc: Global, exchange: u8, datagram: &[u8], out: &mut Octets, text: &mut Text) {
    match read_header(datagram, exchange) {
        Ok(header) => {
            if out.extend(&write_header(&header)).is_err() {
                text.lose();
            }
        }
        Err(fault) => add_shown(alloc, &fault, text),
    }
}

fn part(alloc: Global, kind: u8, body: &[u8], text: &mut Text)
    requires { length body.now ≤ 65507 }
{
    let part = Part {
        kind,
        at: 28,
        start: 0,
        length: body.len(),
    };
    let fault = match kind {
        8 => part.hash(body).err(),
        9 => part.signature(body).err(),
        10 => part.nonce(body).err(),
        18 => sequence(&part, body, text),
        _ => identification(&part, body, text),
    };
    match fault {
        Some(fault) => add_shown(alloc, &fault, text),
        None => text.add("ok"),
    }
}

fn sequence(part: &Part, body: &[u8], text: &mut Text) -> Option<WireFault>
    requires within { part.now.start + part.now.length ≤ length body.now }
    requires small { part.now.at + 4 + part.now.length ≤ 4294967295 }
{
    match part.sequence(body) {
        Ok(number) => {
            add_number(u64::from(number), text);
            None
        }
        Err(fault) => Some(fault),
    }
}

fn identification(part: &Part, body: &[u8], text: &mut Text) -> Option<WireFault>
    requires within { part.now.start + part.now.length ≤ length body.now }
    requires small { part.now.at + 4 + part.now.length ≤ 4294967295 }
{
    match part.identification(body) {
        Ok(found) => {
            add_number(u64::from(found.id_type), text);
            text.add_letters(found.octets);
            text.add(" ");
            None
        }
        Err(fault) => Some(fault),
    }
}
