//! Pushes that are opened.

use crate::frames::Known;
use crate::frames::values::{add_arrays, add_traffic};
use case_lines::Text;
use gd_edges::TestVerifier;
use push_msg::{OpenBody, OpenPush, Room, open_push};
use std::alloc::Global;

pub fn push(
    alloc: Global,
    known: &Known,
    last: u32,
    datagram: &[u8],
    text: &mut Text,
) -> Option<()> {
    let mut room = Room::new(alloc).ok()?;
    open(known, last, datagram, &mut room, text);
    drop(room);
    Some(())
}

fn open(known: &Known, last: u32, datagram: &[u8], room: &mut Room, text: &mut Text) {
    match open_push(
        datagram,
        &known.spi,
        &known.kek,
        last,
        &TestVerifier::new(),
        room,
    ) {
        Ok(push) => add_push(&push, room.text(), text),
        Err(refusal) => text.add_value(&refusal),
    }
}

fn add_push(push: &OpenPush, keys: &[u8], text: &mut Text) {
    text.add("ok");
    text.add_numbers(&[u64::from(push.sequence)]);
    match &push.body {
        OpenBody::Membership { span, .. } => add_arrays(span, keys, text),
        OpenBody::Traffic { traffic } => add_traffic(traffic, text),
    }
}
