//! Messages of a pull that are read.

use crate::frames::Known;
use crate::frames::values::{add_path, add_policies, add_traffic};
use case_lines::Text;
use group_terms::Keyed;
use pull_msgs::{PullFault, read_first, read_fourth, read_second, read_third};
use std::alloc::Global;

pub fn first(alloc: Global, known: &Known, datagram: &[u8], text: &mut Text) {
    match read_first(alloc, datagram, &known.phase) {
        Ok(first) => {
            text.add("ok");
            text.add_octets(&[first.ni.octets(), first.id.as_slice()]);
            text.add_numbers(&[u64::from(first.id_type)]);
        }
        Err(fault) => add_refused(&fault, text),
    }
}

pub fn second(alloc: Global, known: &Known, datagram: &[u8], text: &mut Text) {
    let Known {
        phase,
        message,
        iv,
        ni,
        ..
    } = known;
    match read_second(alloc, datagram, phase, message, iv, ni) {
        Ok(second) => {
            text.add("ok");
            text.add_octets(&[second.nr.octets()]);
            add_policies(&second.policy, text);
        }
        Err(fault) => add_refused(&fault, text),
    }
}

pub fn third(alloc: Global, known: &Known, datagram: &[u8], text: &mut Text) {
    let Known {
        phase,
        message,
        iv,
        ni,
        nr,
        ..
    } = known;
    match read_third(alloc, datagram, phase, message, iv, ni, nr) {
        Ok(third) => {
            text.add("ok");
            text.add_octets(&[&third.next_iv]);
        }
        Err(fault) => add_refused(&fault, text),
    }
}

pub fn fourth(alloc: Global, known: &Known, datagram: &[u8], text: &mut Text) {
    let Known {
        spi,
        phase,
        message,
        iv,
        ni,
        nr,
        ..
    } = known;
    match read_fourth(alloc, datagram, phase, message, iv, ni, nr, spi) {
        Ok(keyed) => add_keyed(&keyed, text),
        Err(fault) => add_refused(&fault, text),
    }
}

fn add_keyed(keyed: &Keyed, text: &mut Text) {
    text.add("ok");
    text.add_numbers(&[u64::from(keyed.epoch), u64::from(keyed.sequence)]);
    text.add_octets(&[&keyed.spi]);
    add_path(keyed.path.keys(), text);
    add_traffic(&keyed.traffic, text);
}

/// The first fault of a message, or the HASH that is due.
fn add_refused(fault: &PullFault, text: &mut Text) {
    match fault {
        PullFault::Malformed { fault } => text.add_value(fault),
        PullFault::BadHash { expected, .. } => {
            text.add("bad-hash");
            text.add_octets(&[expected]);
        }
        PullFault::NoMemory => text.lose(),
    }
}
