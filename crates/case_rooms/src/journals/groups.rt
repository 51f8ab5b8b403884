//! Groups in journals.

use crate::journals::forms::{add_batch, add_head};
use case_lines::Text;
use gd_disk::Disk;
use std::alloc::Global;
use tree_journal::JournalRefusal;
use tree_store::{FormatRefusal, Replay, Stored, TreeStore};

/// The depth of a group, how many batches were read, and where it is after the last one.
#[derive(Clone, Copy)]
struct Seen {
    depth: u8,
    batches: u64,
    epoch: u32,
    sequence: u32,
}

/// Reads all batches of a group: ` read DEPTH BATCHES EPOCH NUMBER`; before that, where they are shown, the head and each batch.
pub fn read_group<D: Disk + Drop>(
    alloc: Global,
    disk: D,
    shows: bool,
    text: &mut Text,
) -> Result<(), JournalRefusal> {
    match TreeStore::open(alloc, disk) {
        Ok(mut store) => {
            if shows {
                text.add(" ");
                add_head(alloc, &store.head(), text);
            }
            let read = read_batches(alloc, &mut store, shows, text);
            drop(store);
            read
        }
        Err(FormatRefusal { why, disk }) => {
            drop(disk);
            Err(why)
        }
    }
}

fn add_seen(seen: &Seen, text: &mut Text) {
    text.add(" read");
    text.add_numbers(&[
        u64::from(seen.depth),
        seen.batches,
        u64::from(seen.epoch),
        u64::from(seen.sequence),
    ]);
}

fn read_batches<D: Disk>(
    alloc: Global,
    store: &mut TreeStore<D>,
    shows: bool,
    text: &mut Text,
) -> Result<(), JournalRefusal> {
    let mut seen = Seen {
        depth: store.head().depth,
        batches: 0,
        epoch: 0,
        sequence: 0,
    };
    let mut replay = Replay::begin(alloc, &store.head())?;
    while store.next_batch(alloc, &mut replay)? {
        see_last(alloc, &replay, shows, &mut seen, text);
    }
    drop(replay);
    add_seen(&seen, text);
    Ok(())
}

fn see_last(alloc: Global, replay: &Replay, shows: bool, seen: &mut Seen, text: &mut Text) {
    match replay.last() {
        Some(next) => see(alloc, &next.stored, shows, seen, text),
        None => {}
    }
}

fn see(alloc: Global, stored: &Stored, shows: bool, seen: &mut Seen, text: &mut Text) {
    seen.batches = seen.batches.saturating_add(1);
    seen.epoch = stored.epoch;
    seen.sequence = stored.sequence;
    if shows {
        text.add(" ");
        add_batch(alloc, stored, text);
    }
}
