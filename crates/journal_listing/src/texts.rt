//! The text of a listing.
ghost use Rattle.std.specs.Prelude.{◌≡◌, ◌++◌, [], ◌∷◌, OnOk};
ghost use Rattle.std.specs.List.{flat_map};
ghost use Rattle.journal_listing.specs.Texts.{batch_line, change_text, counts_text, end_line, head_line, head_lines, listing_text, name_text, place_line};

use crate::rows::{JournalEnd, ListedBatch, Listing};
use group_records::Head;
use group_terms::{Change, MemberName, NoMemory, Octets};
use script_text::{append_hex, append_number, append_place};

/// Puts the text of a listing at the end of another.
pub(crate) fn append_listing(listing: &Listing, out: &mut Octets) -> Result<(), NoMemory>
    ensures { OnOk result (out.new ≡ out.old ++ listing_text listing.now) }
{
    append_head(&listing.head, out)?;
    append_batches(listing.batches.as_slice(), out)?;
    append_end(listing.end, out)
}

fn append_head(head: &Option<Head>, out: &mut Octets) -> Result<(), NoMemory>
    ensures { OnOk result (out.new ≡ out.old ++ head_lines head.now) }
{
    match head {
        Some(head) => append_head_line(head, out),
        None => Ok(()),
    }
}

fn append_head_line(head: &Head, out: &mut Octets) -> Result<(), NoMemory>
    ensures { OnOk result (out.new ≡ out.old ++ head_line head.now) }
{
    out.extend(b"depth ")?;
    append_number(u32::from(head.depth), out)?;
    out.extend(b" limit ")?;
    append_number(head.limit, out)?;
    out.extend(b" name ")?;
    append_name(head.name.text(), out)?;
    out.extend(b"\n")
}

/// Puts the name of a group at the end of a text: in hex, where a member could not have it.
fn append_name(name: &[u8], out: &mut Octets) -> Result<(), NoMemory>
    ensures { OnOk result (out.new ≡ out.old ++ name_text name.now) }
{
    if MemberName::read(name).is_some() {
        return out.extend(name);
    }
    out.extend(b"hex:")?;
    append_hex(name, out)
}

fn append_batches(batches: &[ListedBatch], out: &mut Octets) -> Result<(), NoMemory>
    ensures { OnOk result (out.new ≡ out.old ++ flat_map batch_line batches.now) }
{
    for batch in batches {
        append_batch(batch, out)?;
    }
    Ok(())
}

fn append_batch(batch: &ListedBatch, out: &mut Octets) -> Result<(), NoMemory>
    ensures { OnOk result (out.new ≡ out.old ++ batch_line batch.now) }
{
    append_counts(batch, out)?;
    append_changes(batch.changes.changes(), out)?;
    out.extend(b"\n")
}

fn append_counts(batch: &ListedBatch, out: &mut Octets) -> Result<(), NoMemory>
    ensures { OnOk result (out.new ≡ out.old ++ counts_text batch.now) }
{
    out.extend(b"epoch ")?;
    append_number(batch.epoch, out)?;
    out.extend(b" sequence ")?;
    append_number(batch.sequence, out)?;
    out.extend(b" keys ")?;
    append_place(batch.keys as u64, out)
}

/// Puts who went and who came at the end of a text.
fn append_changes(changes: &[Change], out: &mut Octets) -> Result<(), NoMemory>
    ensures { OnOk result (out.new ≡ out.old ++ flat_map change_text changes.now) }
{
    for change in changes {
        append_change(change, out)?;
    }
    Ok(())
}

fn append_change(change: &Change, out: &mut Octets) -> Result<(), NoMemory>
    ensures { OnOk result (out.new ≡ out.old ++ change_text change.now) }
{
    match change {
        Change::Out { member } => {
            out.extend(b" out ")?;
            out.extend(member.text())
        }
        Change::In { member } => {
            out.extend(b" in ")?;
            out.extend(member.text())
        }
    }
}

fn append_end(end: JournalEnd, out: &mut Octets) -> Result<(), NoMemory>
    ensures { OnOk result (out.new ≡ out.old ++ end_line end) }
{
    match end {
        JournalEnd::Whole => out.extend(b"whole\n"),
        JournalEnd::Begun { at } => { append_at(b"a record begun and not closed at ", at, out) }
        JournalEnd::NotAJournal { at } => append_at(b"not a journal at ", at, out),
    }
}

/// Puts a line that ends with a place at the end of a text.
fn append_at(front: &[u8], at: u64, out: &mut Octets) -> Result<(), NoMemory>
    ensures { OnOk result (out.new ≡ out.old ++ place_line front.now at) }
{
    out.extend(front)?;
    append_place(at, out)?;
    out.extend(b"\n")
}
