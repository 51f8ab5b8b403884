//! Listing the journal that a source has.
ghost use Rattle.std.specs.Prelude.{◌≡◌, ◌⊎◌, ◌<◌};
ghost use Rattle.journal_listing.specs.Lists.{ListsFile, Lists, TextEnds, due_after};
ghost use Rattle.journal_listing.specs.Texts.{listing_text, usage_text};
ghost use Rattle.run_report.specs.declared.endings.Ending.TheVariants.{Memory, NoGroup};

use crate::octets::take_all;
use crate::readings::read_listing;
use crate::rows::{JournalEnd, Listing};
use crate::texts::append_listing;
use gd_edges::{Failed, Sink, Source};
use group_terms::{List, NoMemory, Octets};
use run_report::{Ending, put_lines};
use std::alloc::Global;

/// What is said where there are words.
const USAGE: &[u8] = b"gdoi_journal takes no words, and a journal on standard input\n";

/// Lists the journal that a source has: a line of its group, one for each batch, and one of how its octets end. No value of a key is in them.
///
/// It ends `Whole` where the octets are the journal of a group, also where a record after the last one was begun and not closed; `NotOpened`
/// where they are none, and then what comes before the first fault is listed; `NoGroup` where the program was given words, and then the source is
/// not touched; `Source` and `Sink` where these fail, and `Memory` where it runs out. Nothing is written before all is read.
pub fn list_journal<S: Source, K: Sink>(
    alloc: Global,
    words: usize,
    journal: &mut S,
    out: &mut K,
) -> Ending
    ensures words { 0 < words → TextEnds NoGroup result (K.shows out.old) (K.shows out.new) usage_text }
    ensures untouched { 0 < words → journal.new ≡ journal.old }
    ensures lists { words ≡ 0 → Lists (S.shows journal.old) (S.shows journal.new) result (K.shows out.old) (K.shows out.new) }
{
    if words > 0 {
        return put_text(USAGE, Ending::NoGroup, out);
    }
    match take_all(alloc, journal) {
        Ok(file) => list_file(alloc, file, out),
        Err(ending) => ending,
    }
}

/// Lists the octets of a journal.
fn list_file<K: Sink>(alloc: Global, file: Octets, out: &mut K) -> Ending
    ensures { ListsFile file result (K.shows out.old) (K.shows out.new) ⊎ ((result ≡ Memory) × (out.new ≡ out.old)) }
{
    match read_listing(alloc, file) {
        Ok(listing) => put_listing(alloc, &listing, out),
        Err(NoMemory) => Ending::Memory,
    }
}

/// Puts the text of a listing.
fn put_listing<K: Sink>(alloc: Global, listing: &Listing, out: &mut K) -> Ending
    ensures { TextEnds (due_after listing.now.end) result (K.shows out.old) (K.shows out.new) (listing_text listing.now) }
{
    let mut text = List::new(alloc);
    match append_listing(listing, &mut text) {
        Ok(()) => put_text(text.as_slice(), due_after(listing.end), out),
        Err(NoMemory) => Ending::Memory,
    }
}

/// How listing a journal that ends so is to end.
fn due_after(end: JournalEnd) -> Ending
    ensures { result ≡ due_after end }
{
    match end {
        JournalEnd::Whole | JournalEnd::Begun { .. } => Ending::Whole,
        JournalEnd::NotAJournal { .. } => Ending::NotOpened,
    }
}

/// Puts a text; the ending that is due after it, or that the sink failed.
fn put_text<K: Sink>(text: &[u8], due: Ending, out: &mut K) -> Ending
    ensures { TextEnds due result (K.shows out.old) (K.shows out.new) text.now }
{
    match put_lines(text, out) {
        Ok(()) => due,
        Err(Failed) => Ending::Sink,
    }
}
