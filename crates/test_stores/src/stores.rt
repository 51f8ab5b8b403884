//! Stores on disks that expose nothing, and what is asked of them. Calls that promise much are made in functions here that promise no more than is
//! used.
ghost use Rattle.std.specs.Prelude.{◌≡◌, Ok, Some, false, IsSome};

use crate::unseen::UnseenDisk;
use group_terms::{GroupName, NoMemory, Octets};
use std::alloc::Global;
use tree_store::{FormatRefusal, Head, JournalRefusal, Replay, Stored, TreeStore};

pub(crate) type Store = TreeStore<UnseenDisk>;

/// What a store has in place of a number of batches, where others are read.
const OTHERS: usize = usize::MAX;

/// The head of a group with a tree of this depth.
pub(crate) fn head_of(depth: u8) -> Head {
    Head {
        depth,
        name: GroupName::read(b"console").unwrap_or_default(),
        spi: [7; 16],
        limit: u32::MAX,
    }
}

/// Makes the store of a group on a disk, and stores batches, once more from where it is opened again after the first refusal or not. How many are stored,
/// unless no store was made; and the disk.
pub(crate) fn on_new(
    alloc: Global,
    disk: UnseenDisk,
    head: &Head,
    records: &[Octets],
    goes_on: bool,
) -> (Option<usize>, UnseenDisk) {
    if head.depth < 1 || head.depth > 9 || head.limit < 1 {
        return (None, disk);
    }
    match TreeStore::create(alloc, disk, head) {
        Ok(mut store) => {
            let count = stored(alloc, &mut store, records, goes_on);
            (Some(count), store.into_disk())
        }
        Err(FormatRefusal { disk, .. }) => (None, disk),
    }
}

/// Opens a disk. How many of these batches the group on it has, if there is one; and the disk.
pub(crate) fn look(
    alloc: Global,
    disk: UnseenDisk,
    head: &Head,
    records: &[Octets],
) -> (Option<usize>, UnseenDisk) {
    match TreeStore::open(alloc, disk) {
        Ok(mut store) => {
            let count = if has_head(&store, head) {
                found(alloc, &mut store, records).unwrap_or(OTHERS)
            } else {
                OTHERS
            };
            (Some(count), store.into_disk())
        }
        Err(FormatRefusal { disk, .. }) => (None, disk),
    }
}

fn has_head(store: &Store, head: &Head) -> bool {
    store.prove_at_rest();
    store.head() == *head
}

/// How many batches are stored. At the first refusal the store is opened again, if it is to go on, and does so after those that it has.
fn stored(alloc: Global, store: &mut Store, records: &[Octets], goes_on: bool) -> usize
    requires { IsSome store.old.end }
{
    let count = stored_on(store, records);
    if !goes_on || count >= records.len() || reopened(store).is_some() {
        return count;
    }
    match found(alloc, store, records) {
        Some(there) if there == count || there == count + 1 => {
            there.saturating_add(stored_on(store, &records[there..]))
        }
        Some(_) => OTHERS,
        None => count,
    }
}

/// How many batches are stored before the first one that is refused.
fn stored_on(store: &mut Store, records: &[Octets]) -> usize
    requires { IsSome store.old.end }
{
    for (count, record) in records.iter().enumerate() {
        if !commit(store, record) {
            return count;
        }
    }
    records.len()
}

/// Whether a batch is stored. It takes four calls of the disk.
fn commit(store: &mut Store, record: &Octets) -> bool
    requires { IsSome store.old.end }
    ensures { IsSome store.new.end }
{
    if record.len() > 65_536 {
        return false;
    }
    store.commit(record).is_ok()
}

/// Opens a store again, of which nothing more is said; why that is refused, if it is.
fn reopened(store: &mut Store) -> Option<JournalRefusal> {
    store.reopen().err()
}

/// Reads the next batch; whether there is one.
fn go_on(alloc: Global, store: &mut Store, replay: &mut Replay) -> Result<bool, JournalRefusal>
    ensures { result ≡ Ok false → IsSome store.new.end }
{
    store.next_batch(alloc, replay)
}

/// How many of these batches are read from where reading goes on, up to the last one of a store; `None` where others are read.
fn found(alloc: Global, store: &mut Store, records: &[Octets]) -> Option<usize>
    ensures { IsSome result → IsSome store.new.end }
{
    let mut replay = begun(alloc, store)?;
    let found = found_by(alloc, store, &mut replay, records);
    drop(replay);
    found
}

/// A replay of a store.
fn begun(alloc: Global, store: &Store) -> Option<Replay> {
    Replay::begin(alloc, &store.head()).ok()
}

fn found_by(
    alloc: Global,
    store: &mut Store,
    replay: &mut Replay,
    records: &[Octets],
) -> Option<usize>
    ensures { IsSome result → IsSome store.new.end }
{
    for (count, record) in records.iter().enumerate() {
        match is_next(alloc, store, replay, record) {
            Some(true) => {}
            Some(false) => return Some(count),
            None => return None,
        }
    }
    match go_on(alloc, store, replay) {
        Ok(false) => Some(records.len()),
        _ => None,
    }
}

/// Whether the batch of this record is read, or none is left; `None` where neither is so.
fn is_next(alloc: Global, store: &mut Store, replay: &mut Replay, record: &Octets) -> Option<bool>
    ensures { result ≡ Some false → IsSome store.new.end }
{
    match go_on(alloc, store, replay) {
        Ok(true) if is_last(alloc, replay, record) => Some(true),
        Ok(false) => Some(false),
        _ => None,
    }
}

/// Whether the batch that was read last has this record.
fn is_last(alloc: Global, replay: &Replay, record: &Octets) -> bool {
    match replay.last() {
        Some(next) => is_in(alloc, &next.stored, record),
        None => false,
    }
}

/// Whether a batch has this record.
fn is_in(alloc: Global, stored: &Stored, record: &Octets) -> bool {
    let Stored {
        batch,
        epoch,
        sequence,
        values,
    } = stored;
    if values.nodes.len() > 65_535 {
        return false;
    }
    match Store::make_record(alloc, batch, *epoch, *sequence, values) {
        Ok(made) => made.as_slice() == record.as_slice(),
        Err(NoMemory) => false,
    }
}
