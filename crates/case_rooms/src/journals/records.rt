//! Records of journals.
ghost use Rattle.std.specs.Prelude.{IsSome};

use case_lines::Text;
use gd_disk::{Disk, MemDisk};
use group_terms::Octets;
use std::alloc::Global;
use tree_journal::{FormatRefusal, Journal, JournalRefusal};

/// The octets of a body that is appended.
const SIZE: usize = 300;

/// Reads all records: ` records SIZE ..`.
pub fn read_records(alloc: Global, disk: MemDisk, text: &mut Text) -> Result<(), JournalRefusal> {
    match Journal::open(alloc, disk) {
        Ok(mut journal) => {
            let read = read_sizes(alloc, &mut journal, text);
            drop(journal);
            read
        }
        Err(FormatRefusal { why, disk }) => {
            drop(disk);
            Err(why)
        }
    }
}

fn read_sizes(
    alloc: Global,
    journal: &mut Journal<MemDisk>,
    text: &mut Text,
) -> Result<(), JournalRefusal> {
    text.add(" records");
    let mut body = Octets::new(alloc);
    while journal.read_next(&mut body)? {
        text.add_numbers(&[body.len() as u64]);
    }
    Ok(())
}

/// Makes a journal on a disk, with so many records, each filled with the last octet of its number, and says how many.
pub fn append<D: Disk + Drop>(alloc: Global, disk: D, count: u32, text: &mut Text) -> Option<()> {
    let mut journal = Journal::format(alloc, disk).ok()?;
    let appended = append_all(&mut journal, count);
    drop(journal);
    appended.ok()?;
    text.add_numbers(&[u64::from(count)]);
    Some(())
}

fn append_all<D: Disk>(journal: &mut Journal<D>, count: u32) -> Result<(), JournalRefusal>
    requires { IsSome journal.old.end }
{
    for number in 0..count {
        journal.append(&[(number % 256) as u8; SIZE])?;
    }
    Ok(())
}
