//! What the readers of the framing and of payloads find.
ghost use Rattle.std.specs.Prelude.{◌≤◌, length};

use crate::frames::values::{add_arrays, add_path, add_policies, add_traffic};
use case_lines::{Text, number, octets};
use gd_wire::{AttrValue, Attribute, MOST_PAYLOADS, Part, read_attribute, read_chain, read_header};
use kd_wire::{KdView, read_kd};
use sa_wire::read_sa;
use std::alloc::Global;

pub fn header(exchange: u8, datagram: &[u8], text: &mut Text) {
    match read_header(datagram, exchange) {
        Ok(header) => {
            text.add("ok");
            text.add_octets(&[&header.cookies, &header.message]);
            text.add_numbers(&[
                u64::from(header.next),
                u64::from(header.exchange),
                u64::from(header.length),
            ]);
        }
        Err(fault) => text.add_value(&fault),
    }
}

pub fn attribute(at: usize, base: u32, body: &[u8], text: &mut Text)
    requires early { base ≤ 65535 }
    requires short { length body.now ≤ 65536 }
{
    if at > body.len() {
        return text.lose();
    }
    match read_attribute(body, at, base) {
        Ok(read) => add_attribute(&read, text),
        Err(fault) => text.add_value(&fault),
    }
}

fn add_attribute(read: &Attribute, text: &mut Text) {
    text.add("ok");
    let (kind, next) = (u64::from(read.kind), read.next as u64);
    match read.value {
        AttrValue::Short { number } => text.add_numbers(&[kind, u64::from(number), next]),
        AttrValue::Long { start, length } => {
            text.add_numbers(&[kind, start as u64, length as u64, next]);
        }
    }
}

pub fn chain(alloc: Global, words: &[&str], body: &[u8], text: &mut Text) -> Option<()>
    requires { length body.now ≤ 65536 }
{
    let [first, due, base] = words else {
        return None;
    };
    let (first, base) = (number(first)?, number(base)?);
    let due = octets(alloc, due)?;
    let kind = (first % 256) as u8;
    let asked = chain_of(kind, due.as_slice(), base % 65_536, body, text);
    drop(due);
    asked
}

fn chain_of(first: u8, due: &[u8], base: u32, body: &[u8], text: &mut Text) -> Option<()>
    requires early { base ≤ 65535 }
    requires short { length body.now ≤ 65536 }
{
    if due.is_empty() || due.len() > MOST_PAYLOADS {
        return None;
    }
    match read_chain(first, due, body, base) {
        Ok(read) => {
            text.add("ok");
            add_parts(read.parts(), text);
        }
        Err(error) => {
            text.add_value(&error.fault);
            add_parts(error.before.parts(), text);
        }
    }
    Some(())
}

fn add_parts(parts: &[Part], text: &mut Text) {
    for part in parts {
        text.add_numbers(&[
            u64::from(part.kind),
            u64::from(part.at),
            part.start as u64,
            part.length as u64,
        ]);
    }
}

pub fn sa(base: u32, body: &[u8], text: &mut Text)
    requires early { base ≤ 65535 }
    requires short { length body.now ≤ 65536 }
{
    match read_sa(body, base) {
        Ok(policy) => {
            text.add("ok");
            add_policies(&policy, text);
        }
        Err(fault) => text.add_value(&fault),
    }
}

pub fn kd(base: u32, body: &[u8], text: &mut Text)
    requires early { base ≤ 65535 }
    requires short { length body.now ≤ 65536 }
{
    match read_kd(body, base) {
        Ok(view) => add_kd(&view, body, text),
        Err(fault) => text.add_value(&fault),
    }
}

fn add_kd(view: &KdView, body: &[u8], text: &mut Text) {
    text.add("ok");
    if let Some(traffic) = &view.tek {
        add_traffic(traffic, text);
    }
    if let Some(spi) = &view.lkh_spi {
        text.add(" lkh");
        text.add_octets(&[spi]);
    }
    add_path(view.download.keys(), text);
    if let Some(span) = &view.updates {
        add_arrays(span, body, text);
    }
}
