//! Reading a journal in memory to its end.
ghost use Rattle.std.specs.Prelude.{◌≡◌, [], ℕ, List as Items, None, Some, false, length, map, IfOk, IsSome, OnOk};
ghost use Rattle.group_records.specs.declared.batches.Stored.{Stored};
ghost use Rattle.journal_listing.specs.Listings.{EndsAfter, IsListingOf, listed_as};
ghost use Rattle.journal_listing.specs.Private.Replays.{GoesOn, IsEndAt, IsFurther, IsReadTo};
ghost use Rattle.journal_listing.specs.declared.rows.JournalEnd.TheVariants.{NotAJournal};
ghost use Rattle.tree_store.specs.Groups.{IsGroupTo};
ghost use Rattle.tree_store.specs.declared.dues.Due.{Due};
ghost use Rattle.tree_journal.specs.declared.refusals.JournalRefusal.TheVariants.{NotAJournal as NoJournal};

use crate::rows::{JournalEnd, ListedBatch, Listing, listed};
use gd_disk::{FARTHEST, MemDisk};
use group_terms::{List, NoMemory, Octets};
use std::alloc::Global;
use tree_store::{FormatRefusal, JournalRefusal, Replay, TreeStore};

/// What comes next in a journal.
#[derive(Drop)]
pub(crate) enum Next {
    Batch { batch: ListedBatch },
    End { end: JournalEnd },
}

/// What the octets of a journal have. `NoMemory` where it runs out, or where there are more octets than a disk can have.
pub fn read_listing(alloc: Global, image: Octets) -> Result<Listing, NoMemory>
    ensures { IfOk result (IsListingOf image) }
{
    let size = image.len() as u64;
    if size > FARTHEST {
        return Err(NoMemory);
    }
    match TreeStore::open(alloc, MemDisk::holding(alloc, image)) {
        Ok(store) => list_store(alloc, store, size),
        Err(FormatRefusal { why, disk: _ }) => list_headless(alloc, why),
    }
}

/// What is listed of a journal that has no head.
fn list_headless(alloc: Global, why: JournalRefusal) -> Result<Listing, NoMemory>
    ensures { IfOk result (λ listing. (at : ℕ) × (why ≡ NoJournal at) × (listing ≡ record { head = None; batches = []; end = NotAJournal at })) }
{
    let end = end_of(why)?;
    Ok(Listing {
        head: None,
        batches: List::new(alloc),
        end,
    })
}

/// What is listed of a store that was just opened, on a disk of this size.
fn list_store(alloc: Global, mut store: TreeStore<MemDisk>, size: u64) -> Result<Listing, NoMemory>
    requires open { store.closed ≡ false }
    requires read { IsGroupTo store.disk.image store.head [] store.at }
    requires size { size ≡ length store.disk.image }
    ensures { IfOk result (IsListingOf store.disk.image) }
{
    let head = store.head();
    let mut batches = List::new(alloc);
    let end = list_batches(alloc, &mut store, size, &mut batches)?;
    Ok(Listing {
        head: Some(head),
        batches,
        end,
    })
}

/// Lists the batches of a store that was just opened; how the octets of its disk end. `NoMemory` if out of memory for them.
fn list_batches(
    alloc: Global,
    store: &mut TreeStore<MemDisk>,
    size: u64,
    batches: &mut List<ListedBatch>,
) -> Result<JournalEnd, NoMemory>
    requires open { store.old.closed ≡ false }
    requires read { IsGroupTo store.old.disk.image store.old.head [] store.old.at }
    requires size { size ≡ length store.old.disk.image }
    requires none { batches.old ≡ [] }
    ensures { IfOk result (λ end. (list : Items Stored) × (batches.new ≡ map listed_as list)
        × EndsAfter store.old.disk.image store.old.head list end) }
{
    let mut replay = Replay::begin(alloc, &store.head())?;
    'batches: loop {
        match next_batch(alloc, store, &mut replay, size)? {
            Next::Batch { batch } => batches.push(batch)?,
            Next::End { end } => return Ok(end),
        }
    }
}

/// The next batch, or how the octets of a disk of this size end. `NoMemory` if out of memory for it.
fn next_batch(
    alloc: Global,
    store: &mut TreeStore<MemDisk>,
    replay: &mut Replay,
    size: u64,
) -> Result<Next, NoMemory>
    requires open { store.old.closed ≡ false }
    requires size { size ≡ length store.old.disk.image }
    ensures next { (list : Items Stored) → IsReadTo store.old replay.old list → IfOk result (GoesOn list store.old store.new replay.new) }
    ensures further { IfOk result (IsFurther store.old store.new) }
    ensures same { store.new.disk.image ≡ store.old.disk.image }
    ensures head { store.new.head ≡ store.old.head }
    ensures open { OnOk result (store.new.closed ≡ false) }
{
    match store.next_batch(alloc, replay) {
        Ok(true) => Ok(Next::Batch {
            batch: last_listed(replay),
        }),
        Ok(false) => Ok(Next::End {
            end: end_at(store.place(), size),
        }),
        Err(why) => Ok(Next::End { end: end_of(why)? }),
    }
}

/// The batch that was read last, as it is listed.
fn last_listed(replay: &Replay) -> ListedBatch
    requires { IsSome replay.now.last }
    ensures { (next : Due) → replay.now.last ≡ Some next → result ≡ listed_as next.stored }
{
    match replay.last() {
        Some(next) => listed(&next.stored),
        None => unreachable!(),
    }
}

/// How octets of this size end that have a clear commit mark at this place.
fn end_at(at: u64, size: u64) -> JournalEnd
    ensures { IsEndAt at size result }
{
    if size.saturating_sub(at) > 1 {
        JournalEnd::Begun { at }
    } else {
        JournalEnd::Whole
    }
}

/// How octets end at which a store refuses. A disk in memory for which no fault is planned refuses no read.
fn end_of(why: JournalRefusal) -> Result<JournalEnd, NoMemory>
    ensures { IfOk result (λ end. (at : ℕ) × (why ≡ NoJournal at) × (end ≡ NotAJournal at)) }
{
    match why {
        JournalRefusal::NotAJournal { at } => Ok(JournalEnd::NotAJournal { at }),
        JournalRefusal::Closed | JournalRefusal::DiskFault | JournalRefusal::NoMemory => Err(
            NoMemory,
        ),
    }
}
